//! A linked module, before it has a place.

ghost use Rattle.std.specs.Prelude.{◌≡◌, ◌+◌, ◌≤◌, length, IfOk};
ghost use Rattle.ad_base.specs.Image.{IsWhole, text_image};
ghost use Rattle.ad_base.specs.Place.{IsModulePlace};

use crate::layout::{PAGE_BYTES, STUB_PAGES, TABLE_PAGES};
use crate::memory::OutOfMemory;
use crate::name::Name;
use crate::place::Place;
use crate::sequence::Sequence;
use std::alloc::Global;

/// A word of the local area.
#[derive(Clone, Copy, Debug, PartialEq, Eq)]
pub enum Cell {
    /// The base of the movable part and this offset, modulo 2^64.
    Off(u64),
    /// A number.
    Num(u64),
}

/// A function that calls may enter, at an offset from the base of the movable part.
#[derive(Debug, Drop)]
pub struct Export {
    pub name: Name,
    pub offset: u64,
}

/// A module that is linked: the bytes of its parts, and the words of its tables.
///
/// The movable part has these pages in order: text, one stub page, read-only data, one page of the
/// fixed table, one page of the local area, writable data. The immovable part has the same without
/// the local area, and lies at `fixed`.
#[derive(Debug, Drop)]
pub struct Image {
    pub text_pages: u16,
    pub read_pages: u16,
    pub data_pages: u16,
    /// The text pages, the stub page and the read-only pages of the movable part, whole.
    pub code: Sequence<u8>,
    /// The words of the local area.
    pub cells: Sequence<Cell>,
    /// The data pages of the movable part, whole.
    pub writable: Sequence<u8>,
    /// The words of the fixed table.
    pub table: Sequence<u64>,
    pub fixed_text_pages: u16,
    pub fixed_read_pages: u16,
    pub fixed_data_pages: u16,
    /// The text pages, the stub page and the read-only pages of the immovable part, whole.
    pub fixed_code: Sequence<u8>,
    /// The data pages of the immovable part, whole.
    pub fixed_data: Sequence<u8>,
    /// Where the immovable part lies.
    pub fixed: Place,
    pub exports: Sequence<Export>,
}

/// Bytes of the stubs of a part.
const STUB_BYTES: u64 = STUB_PAGES as u64 * PAGE_BYTES;

impl Image {
    /// The image of a page of text and nothing else, which is filled up with zeros. The immovable part, the stubs and
    /// the fixed table, lies at this place. It fails for want of memory alone.
    pub fn of_text(
        alloc: Global,
        text: Vec<u8>,
        exports: Sequence<Export>,
        fixed: Place,
    ) -> Result<Image, OutOfMemory>
        requires { length text.items ≤ PAGE_BYTES }
        ensures image { IfOk result (λ image. image ≡ text_image text.items exports fixed) }
        ensures whole { IsModulePlace fixed → fixed.pages ≡ STUB_PAGES + TABLE_PAGES → IfOk result IsWhole }
    {
        let mut code = text;
        code.resize((PAGE_BYTES + STUB_BYTES) as usize, 0)?;
        let mut fixed_code = Vec::new(alloc);
        fixed_code.resize(STUB_BYTES as usize, 0)?;
        Ok(Image {
            text_pages: 1,
            read_pages: 0,
            data_pages: 0,
            code: Sequence::of(code),
            cells: Sequence::of(Vec::new(alloc)),
            writable: Sequence::of(Vec::new(alloc)),
            table: Sequence::of(Vec::new(alloc)),
            fixed_text_pages: 0,
            fixed_read_pages: 0,
            fixed_data_pages: 0,
            fixed_code: Sequence::of(fixed_code),
            fixed_data: Sequence::of(Vec::new(alloc)),
            fixed,
            exports,
        })
    }
}
