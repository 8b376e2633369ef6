//! The memory of an image before its first call.

ghost use Rattle.std.specs.Prelude.{◌≡◌, ◌*◌, IfOk};
ghost use Rattle.ad_base.specs.Image.{movable_pages, IsWhole};
ghost use Rattle.ad_base.specs.declared.layout.TheConstants.{PAGE_BYTES};
ghost use Rattle.ad_symbolic.specs.AddressSpace.{numbers_of};
ghost use Rattle.ad_symbolic.specs.Private.Reached.{IsOfImage};

use crate::memory::Memory;
use crate::pages::{FixedPieces, MovablePieces, stack_bytes};
use crate::piece::Piece;
use ad_base::{Image, LOCAL_PAGES, OutOfMemory, PAGE_BYTES, STUB_PAGES, TABLE_PAGES};
use std::alloc::Global;

impl<'a> Memory<'a> {
    /// What the calls of an image reach, before the first.
    pub fn of(alloc: Global, image: &'a Image) -> Result<Memory<'a>, OutOfMemory>
        requires { IsWhole image.now }
        ensures image { IfOk result (λ m. m.image.now ≡ image.now) }
        ensures writable { IfOk result (λ m. m.writable.bytes ≡ numbers_of image.now.writable) }
        ensures fixed { IfOk result (λ m. m.fixed_data.bytes ≡ numbers_of image.now.fixed_data) }
        ensures laid_out { IfOk result IsOfImage }
    {
        let movable = MovablePieces::of(alloc, image)?;
        let fixed = FixedPieces::of(alloc, image)?;
        let stack = Piece::of(0, stack_bytes(alloc)?);
        Ok(Memory {
            image,
            movable_bytes: movable_bytes(image),
            code: movable.code,
            constants: movable.constants,
            table: movable.table,
            cells: movable.cells,
            writable: movable.writable,
            stack,
            fixed_code: fixed.code,
            fixed_constants: fixed.constants,
            fixed_table: fixed.table,
            fixed_data: fixed.writable,
        })
    }
}

/// The bytes of an image's movable part.
fn movable_bytes(image: &Image) -> u64
    requires { IsWhole image.now }
    ensures { result ≡ movable_pages image.now * PAGE_BYTES }
{
    let pages = u64::from(image.text_pages)
        + u64::from(STUB_PAGES)
        + u64::from(image.read_pages)
        + u64::from(TABLE_PAGES)
        + u64::from(LOCAL_PAGES)
        + u64::from(image.data_pages);
    pages * PAGE_BYTES
}
