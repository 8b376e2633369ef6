//! How many words the table has, and where each area of them begins.

/// Slots at most.
pub const SLOTS: usize = 16;

/// Frames of a module at most.
pub const MODULE_FRAMES: usize = 16;

/// Batches, and mappings, are numbered below this.
pub const NUMBERS: usize = 4096;

/// Mappings that one batch lists at most.
pub const MEMBERS: usize = 8;

/// Modules at most.
pub(crate) const MODULE_WORDS: usize = 8;

/// Regions.
pub(crate) const REGION_WORDS: usize = 65_536;

/// Frames at most, over all modules.
pub(crate) const FRAME_WORDS: usize = 128;

/// Words of a frame.
pub(crate) const CELLS: usize = 512;

/// Where the words of the current mappings begin. Those of the slots begin at 0.
pub(crate) const CURRENT_BASE: usize = 16;

/// Where the directory begins.
pub(crate) const DIRECTORY_BASE: usize = 24;

/// Where the owners of the frames begin.
pub(crate) const OWNER_BASE: usize = 65_560;

/// Where the frames begin.
pub(crate) const CELL_BASE: usize = 65_688;

/// Where the counts of the batches begin.
pub(crate) const COUNT_BASE: usize = 131_224;

/// Where the members of the batches begin.
pub(crate) const MEMBER_BASE: usize = 135_320;

/// One unmap step, in a directory word.
pub(crate) const ONE_UNMAP: u64 = 1 << 56;

/// One batch pushed, in a slot's word, and one slot that a batch isn't pushed on, in its count.
pub(crate) const ONE_PUSH: u64 = 1 << 32;

/// One line, in the word of a member.
pub(crate) const ONE_LINE: u64 = 1 << 16;

/// Lines are numbered from 1 to this.
pub const LINES: u64 = 20_000;

/// Words of the table.
pub(crate) const WORDS: usize = 168_088;
