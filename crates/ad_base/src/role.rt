//! What the bytes that a call reaches are.

/// What a piece of a module or a stack holds. The stubs of a part lie behind its code, and belong to it.
#[derive(Clone, Copy, Debug, PartialEq, Eq)]
pub enum Role {
    /// The stack.
    Stack,
    /// The immovable part's text pages and stubs.
    FixedCode,
    /// The immovable part's read-only pages.
    FixedConstants,
    /// The table of the immovable part.
    FixedTable,
    /// The immovable part's writable pages.
    FixedData,
    /// The movable part's text pages and stubs.
    Code,
    /// The movable part's read-only pages.
    Constants,
    /// The table of the movable part.
    Table,
    /// The movable part's local area.
    Cells,
    /// The movable part's writable pages.
    Data,
}
