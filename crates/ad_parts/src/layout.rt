//! Where the sections of an object go.

use ad_base::{Export, Sequence};

/// Where the sections of an object go, how long the groups are, and which symbols calls may enter.
#[derive(Debug, Drop)]
pub struct Layout {
    /// One for each section, in order.
    pub spots: Sequence<Spot>,
    pub sizes: Sizes,
    /// In the order of the table of symbols.
    pub exports: Sequence<Export>,
}

/// A group of sections of one part.
#[derive(Clone, Copy, Debug, PartialEq, Eq)]
pub enum Group {
    /// What is executed.
    Text,
    /// What is neither executed nor written.
    ReadOnly,
    /// The local area, of which each mapping has its own.
    Local,
    /// What is written.
    Writable,
}

/// Where a section goes.
#[derive(Clone, Copy, Debug, PartialEq, Eq)]
pub struct Spot {
    /// The number of the section's header.
    pub section: u64,
    /// Whether its part is the movable one.
    pub movable: bool,
    pub group: Group,
    /// The offset from the start of its part, in bytes.
    pub offset: u128,
}

/// How long the groups are, in pages.
#[derive(Clone, Copy, Debug, PartialEq, Eq)]
pub struct Sizes {
    pub text_pages: u16,
    pub read_pages: u16,
    pub data_pages: u16,
    pub fixed_text_pages: u16,
    pub fixed_read_pages: u16,
    pub fixed_data_pages: u16,
    /// Bytes of the sections of the local area.
    pub local_bytes: u128,
}
