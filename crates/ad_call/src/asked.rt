//! What the proofs know of what was asked. It is plain data, and no running code makes any. A clause reads an array as a
//! list of any length.

use ad_base::{Image, Place};

/// What the pages of a movable part were asked.
pub enum Asked {
    /// For the page of this address.
    Page(u64),
    /// For the local word at this entry.
    Cell(u64),
}

/// What a bus keeps of the accesses of a call: where the parts and the stack lie, what the pages were made with, and what
/// they were asked, where that is told.
pub struct Track<O> {
    pub image: Image,
    pub under: Place,
    pub stack: Place,
    pub origin: O,
    pub asked: Option<[Asked; 0]>,
}
