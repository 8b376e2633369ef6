//! What a table is opened with.

use ad_base::{Cell, Place, Sequence};

/// A module as it is opened: where its first mapping lies, and the words of its local area.
#[derive(Drop)]
pub struct Opening {
    pub place: Place,
    pub cells: Sequence<Cell>,
}

/// What a table is opened with: so many slots, so many frames for each module, so many workers, and the
/// modules.
#[derive(Drop)]
pub struct Shape {
    pub slots: u64,
    pub frames: u64,
    pub workers: u64,
    pub modules: Sequence<Opening>,
}
