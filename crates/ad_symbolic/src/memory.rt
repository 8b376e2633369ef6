//! The memory of the symbolic machine.

ghost use Rattle.std.specs.Prelude.{◌≡◌, ◌*◌};
ghost use Rattle.ad_base.specs.Image.{movable_pages, IsWhole};
ghost use Rattle.ad_base.specs.declared.layout.TheConstants.{PAGE_BYTES};

use crate::piece::Piece;
use ad_base::Image;

/// What is found where an instruction is fetched.
#[derive(Clone, Copy, Debug)]
pub enum Found {
    /// The word there, the lowest byte first.
    Word(u32),
    /// The service of this number.
    Service(u8),
}

/// What a call of an image reaches. The movable part and the stack lie from offset 0 on, the immovable part where it lies.
#[derive(Drop)]
pub struct Memory<'a> {
    pub image: &'a Image,
    /// The bytes of the movable part.
    pub movable_bytes: u64,
    pub code: Piece,
    pub constants: Piece,
    pub table: Piece,
    pub cells: Piece,
    pub writable: Piece,
    pub stack: Piece,
    pub fixed_code: Piece,
    pub fixed_constants: Piece,
    pub fixed_table: Piece,
    pub fixed_data: Piece,
    ghost whole: { IsWhole image.now },
    ghost sized: { movable_bytes ≡ movable_pages image.now * PAGE_BYTES },
}
