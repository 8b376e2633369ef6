//! What the proofs know of a seat of the table. It is plain data, and no running code makes any but
//! `Made`. A clause reads an array as a list of any length.

use ad_base::Place;

/// What a worker's seat did, as its list tells it.
pub enum Act {
    /// It entered its slot.
    Enter,
    /// It read this place as the current one of the module of this number.
    Read(u64, Place),
    /// It looked up the directory for this address.
    Page(u64),
    /// It read this entry of its mapping's local area.
    Cell(u64),
    /// It left its slot.
    Leave,
    /// It unmapped the mapping of this number.
    Unmap(u64),
}

/// Where a worker's seat is.
pub enum Stance {
    /// It is away, and owes nothing.
    Away,
    /// It has entered its slot, where it found this entry number, and hasn't read yet.
    Entered(u64),
    /// It is inside: the entry number, the module, and the place that it read.
    Inside(u64, u64, Place),
    /// It has left, and has yet to pay the batches above the first number up to the second.
    Paying(u64, u64),
}

/// How far a seat has freed a batch whose count it brought to zero.
pub enum Freeing {
    /// It has none to free.
    Nothing,
    /// It goes on with this batch at the member of this number; no mapping before it is in the directory still.
    Batch(u64, u64),
    /// It goes on with this batch at the member of this number, whose word is this.
    Found(u64, u64, u64),
}

/// What a worker's seat knows.
pub struct Hand {
    /// The slot that it enters on.
    pub slot: u64,
    pub stance: Stance,
    /// The batch that it frees.
    pub freeing: Freeing,
    /// The places of the mappings that it unmapped and whose frames it hasn't given back yet.
    pub gives: [Place; 0],
    /// What it did, in order.
    pub acts: [Act; 0],
}

/// What the mover's seat did, as its list tells it.
pub enum Deed {
    /// It looked at the owner of this frame, and found this one, or 0.
    Look(u64, u64),
    /// It made a mapping of the module of this number, at this place.
    Map(u64, Place),
    /// It made this place the current one of the module of this number.
    Switch(u64, Place),
    /// It listed the mapping of this number to be unmapped, under this line.
    Retire(u64, u64),
    /// It unmapped the mapping of this number.
    Unmap(u64),
}

/// A mapping that was made: the number of its module, and its place.
#[derive(Clone, Copy, Debug, PartialEq, Eq)]
pub struct Made {
    pub of_module: u64,
    pub place: Place,
}

/// How far a new mapping is.
pub enum Stage {
    /// None is under way.
    Idle,
    /// Its frame is taken, and so many of its cells are filled.
    Taken(Made, u64),
}

/// How far the mover's next batch is.
pub enum Passing {
    /// None is under way.
    Rest,
    /// So many mappings are listed in it, and it isn't opened yet.
    Listing(u64),
    /// It is opened, and settled on so many slots; it isn't pushed on the others.
    Settled(u64),
    /// It is settled on so many slots, and pushed on the next one, where it found so many seats inside.
    Pushed(u64, u64),
}

/// What the mover's seat knows.
pub struct Plan {
    pub stage: Stage,
    pub passing: Passing,
    /// The number of the last batch that was opened.
    pub batches: u64,
    /// The batch that it frees.
    pub freeing: Freeing,
    /// So many slots, which the worker's seats take in turn.
    pub slots: u64,
    /// So many worker's seats were split off.
    pub dealt: u64,
    /// The number of the current mapping of each module.
    pub current: [u64; 0],
    /// The mappings that were made and aren't current yet.
    pub fresh: [Made; 0],
    /// The mappings that were current and aren't retired yet.
    pub outs: [Made; 0],
    /// Frames that have no owner: they were found so, and weren't taken since.
    pub rooms: [u64; 0],
    /// The places of the mappings that it unmapped and whose frames it hasn't given back yet.
    pub gives: [Place; 0],
    /// What it did, in order.
    pub deeds: [Deed; 0],
    /// What the worker's seats knew that were joined again, in order of worker.
    pub back: [Hand; 0],
}

/// What a seat knows.
pub enum Doing {
    /// It was joined to the mover's.
    Spent,
    /// It is the seat of the worker of this number.
    Worker(u64, Hand),
    Mover(Plan),
}
