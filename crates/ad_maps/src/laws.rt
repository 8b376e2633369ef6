//! The laws of the steps. Each function makes no call: its contract is the law.

ghost use Rattle.ad_maps.specs.Laws.{EnterLaw, ReadLaw, PageLaw, CellLaw, LeaveLaw, PayLaw, MemberLaw, UnmapLaw, GiveLaw, LookLaw, TakeLaw, FillLaw, MapLaw, SwitchLaw, ListLaw, OpenLaw, PushLaw, SettleLaw, SplitLaw, JoinLaw, OwnerLaw, OwnPagesLaw, OwnCellsLaw};
ghost use Rattle.ad_maps.specs.Opening.{OpeningWordsLaw, OpenedLaw, DealtLaw};
ghost use Rattle.ad_maps.specs.Owing.{CountsLaw, MoverOwesNothingLaw, PinnedLaw, QuietLaw, WorkerOwesNothingLaw};
ghost use Rattle.ad_maps.specs.Reading.{ReadingLaw};

/// A table that is opened begins with the words of its shape: each module's first mapping is current, is in the
/// directory, owns its frame, and has its cells there, and every other word is 0. With these words, and the mover's
/// view, it meets the rule, and so does it behind each seat that is dealt to a worker.
pub fn law_opening()
    ensures words { OpeningWordsLaw }
    ensures opened { OpenedLaw }
    ensures dealt { DealtLaw }
{}

/// To enter is lawful, keeps the rule, and is the event `Enter`.
pub fn law_enter()
    ensures { EnterLaw }
{}

/// To read is lawful, keeps the rule, and is the event `Read`, of the mapping whose place it found.
pub fn law_read()
    ensures { ReadLaw }
{}

/// To leave is lawful, keeps the rule, and is the event `Leave`.
pub fn law_leave()
    ensures { LeaveLaw }
{}

/// The mover's map is lawful, keeps the rule, and is the event `Map`.
pub fn law_map()
    ensures { MapLaw }
{}

/// The mover's switch is lawful, keeps the rule, and is the event `Switch`.
pub fn law_switch()
    ensures { SwitchLaw }
{}

/// The mover's list is lawful, keeps the rule, and is the event `Retire`.
pub fn law_list()
    ensures { ListLaw }
{}

/// To unmap is lawful, by a worker as by the mover, keeps the rule, and is the event `Unmap`, of the mapping whose
/// place it found.
pub fn law_unmap()
    ensures { UnmapLaw }
{}

/// Each other kind of step keeps the rule, and is no event: the world stays as it was.
pub fn law_other()
    ensures page { PageLaw }
    ensures cell { CellLaw }
    ensures look { LookLaw }
    ensures take { TakeLaw }
    ensures fill { FillLaw }
    ensures opened { OpenLaw }
    ensures push { PushLaw }
    ensures settle { SettleLaw }
    ensures pay { PayLaw }
    ensures member { MemberLaw }
    ensures give { GiveLaw }
    ensures split { SplitLaw }
    ensures join { JoinLaw }
{}

/// Where no new mapping is under way, the mover finds that a frame has no owner, or that its owner is the mapping that
/// was made last in it.
pub fn law_owner()
    ensures { OwnerLaw }
{}

/// A worker that is inside finds its own mapping: in the directory, where no other region has the word of a place with
/// its number, and in its cells, each for its own base.
pub fn law_own_pages()
    ensures pages { OwnPagesLaw }
    ensures cells { OwnCellsLaw }
{}

/// The world is reached from the opening's by lawful events, and is read off the words and the views. Each mapping has one
/// place, of its module and with its number. The place's word is the directory's at its region, with one unmap step more
/// where the mapping is Gone, and its module's current word where it is Current; at a region of no mapping the directory
/// has 0. Fresh and Out are read off the mover's view, Retired off the members' words, who has entered and who is inside
/// what off the workers' views. A mapping that a worker is inside isn't Gone. A slot's word counts who has
/// entered or is inside.
pub fn law_reading()
    ensures { ReadingLaw }
{}

/// A mapping that a worker is inside waits for it: it is Current, or Out, or Retired in a batch that the worker's slot
/// has yet to pass or that the worker owes. A count is what is owed, and is zero exactly where somebody brought it there;
/// whoever did, and nobody else, may unmap the batch's mappings, and frees the batch until they are Gone. A seat that is
/// at rest, as `leave` and `retire` leave it, owes nothing and has freed each batch that it brought to zero; the mover's
/// has opened each batch that lists a mapping, and has settled it on every slot. Where all seats are at rest, each mapping
/// that was retired is Gone, unmapped exactly once, and at most one frame of each module has an owner beside those of
/// Fresh and Out mappings.
pub fn law_owing()
    ensures pinned { PinnedLaw }
    ensures counts { CountsLaw }
    ensures worker { WorkerOwesNothingLaw }
    ensures mover { MoverOwesNothingLaw }
    ensures quiet { QuietLaw }
{}
