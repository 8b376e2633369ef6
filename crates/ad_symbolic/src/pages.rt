//! The bytes of an image, as the symbolic machine has them.

ghost use Rattle.std.specs.Prelude.{◌≡◌, ◌*◌, ◌≤◌, length, vec_len, IfOk};
ghost use Rattle.ad_base.specs.Image.{IsWhole};
ghost use Rattle.ad_base.specs.Layout.{page_of_words, text_bytes};
ghost use Rattle.ad_base.specs.declared.layout.TheConstants.{LOCAL_WORDS, PAGE_BYTES, STACK_PAGES, TABLE_WORDS};
ghost use Rattle.ad_symbolic.specs.AddressSpace.{local_page, numbers_of};
ghost use Rattle.ad_symbolic.specs.Machine.{fresh_stack};
ghost use Rattle.ad_symbolic.specs.Private.Opened.{fixed_pieces, movable_pieces};
ghost use Rattle.ad_symbolic.specs.Private.Pages.{value_of_cell};

use crate::arithmetic::STACK_BYTES;
use crate::byte::{Byte, word_bytes};
use crate::piece::Piece;
use crate::value::{Part, Value};
use ad_base::{Cell, Image, OutOfMemory, PAGE_BYTES, STUB_PAGES};
use std::alloc::Global;

/// The bytes of a page.
const PAGE: usize = PAGE_BYTES as usize;

/// The pieces of the movable part.
#[derive(Drop)]
pub struct MovablePieces {
    pub code: Piece,
    pub constants: Piece,
    pub table: Piece,
    pub cells: Piece,
    pub writable: Piece,
}

/// The pieces of the immovable part.
#[derive(Drop)]
pub struct FixedPieces {
    pub code: Piece,
    pub constants: Piece,
    pub table: Piece,
    pub writable: Piece,
}

impl MovablePieces {
    /// Those of an image, before its first call.
    pub fn of(alloc: Global, image: &Image) -> Result<MovablePieces, OutOfMemory>
        requires { IsWhole image.now }
        ensures { IfOk result (λ p. p ≡ movable_pieces image.now) }
    {
        let bytes = image.code.as_slice();
        let text = text_bytes(image.text_pages) as usize;
        let code = Piece::of(0, numbers(alloc, &bytes[..text])?);
        let constants = Piece::of(code.end(), numbers(alloc, &bytes[text..])?);
        let table = Piece::of(constants.end(), table_page(alloc, image.table.as_slice())?);
        let cells = Piece::of(table.end(), cell_page(alloc, image.cells.as_slice())?);
        let writable = Piece::of(cells.end(), numbers(alloc, image.writable.as_slice())?);
        Ok(MovablePieces {
            code,
            constants,
            table,
            cells,
            writable,
        })
    }
}

impl FixedPieces {
    /// Those of an image, before its first call.
    pub fn of(alloc: Global, image: &Image) -> Result<FixedPieces, OutOfMemory>
        requires { IsWhole image.now }
        ensures { IfOk result (λ p. p ≡ fixed_pieces image.now) }
    {
        let bytes = image.fixed_code.as_slice();
        let text = text_bytes(image.fixed_text_pages) as usize;
        let code = Piece::of(image.fixed.base(), numbers(alloc, &bytes[..text])?);
        let constants = Piece::of(code.end(), numbers(alloc, &bytes[text..])?);
        let table = Piece::of(constants.end(), table_page(alloc, image.table.as_slice())?);
        let writable = Piece::of(table.end(), numbers(alloc, image.fixed_data.as_slice())?);
        Ok(FixedPieces {
            code,
            constants,
            table,
            writable,
        })
    }
}

/// These numbers as bytes.
fn numbers(alloc: Global, bytes: &[u8]) -> Result<Vec<Byte>, OutOfMemory>
    ensures items { IfOk result (λ v. v.items ≡ numbers_of bytes.now) }
    ensures len { IfOk result (λ v. vec_len v ≡ length bytes.now) }
{
    let mut numbers = Vec::with_capacity(alloc, bytes.len())?;
    for byte in bytes {
        numbers.push(Byte::Number(*byte))?;
    }
    Ok(numbers)
}

/// The page of the table: its words, and zeros behind the last.
fn table_page(alloc: Global, words: &[u64]) -> Result<Vec<Byte>, OutOfMemory>
    requires { length words.now ≤ TABLE_WORDS }
    ensures items { IfOk result (λ v. v.items ≡ numbers_of (page_of_words words.now)) }
    ensures len { IfOk result (λ v. vec_len v ≡ PAGE_BYTES) }
{
    let mut bytes = Vec::with_capacity(alloc, PAGE)?;
    for word in words {
        bytes.extend_from_slice(&word.to_le_bytes())?;
    }
    bytes.resize(PAGE, 0)?;
    numbers(alloc, bytes.as_slice())
}

/// The page of the local area: its words, and zeros behind the last.
fn cell_page(alloc: Global, cells: &[Cell]) -> Result<Vec<Byte>, OutOfMemory>
    requires { length cells.now ≤ LOCAL_WORDS }
    ensures items { IfOk result (λ v. v.items ≡ local_page cells.now) }
    ensures len { IfOk result (λ v. vec_len v ≡ PAGE_BYTES) }
{
    let mut bytes = Vec::with_capacity(alloc, PAGE)?;
    for cell in cells {
        bytes.extend_from_slice(&word_bytes(value_of_cell(*cell)))?;
    }
    bytes.resize(PAGE, Byte::Number(0))?;
    Ok(bytes)
}

/// A word of the local area as a value.
fn value_of_cell(cell: Cell) -> Value
    ensures { result ≡ value_of_cell cell }
{
    match cell {
        Cell::Off(offset) => Value::At(Part::Movable, offset),
        Cell::Num(number) => Value::Num(number),
    }
}

/// The bytes of a fresh stack.
pub fn stack_bytes(alloc: Global) -> Result<Vec<Byte>, OutOfMemory>
    ensures items { IfOk result (λ v. v.items ≡ fresh_stack) }
    ensures len { IfOk result (λ v. vec_len v ≡ STACK_PAGES * PAGE_BYTES) }
{
    let mut bytes = Vec::new(alloc);
    bytes.resize(STACK_BYTES as usize, Byte::Number(0))?;
    Ok(bytes)
}

/// The bytes of the text pages, and of the stub page behind them.
fn text_bytes(text_pages: u16) -> u64
    ensures { result ≡ text_bytes text_pages }
{
    (u64::from(text_pages) + u64::from(STUB_PAGES)) * PAGE_BYTES
}
