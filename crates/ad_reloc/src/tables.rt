//! The words of the tables of an image.

ghost use Rattle.std.specs.Prelude.{◌≡◌, ◌+◌, ◌^◌, ◌*◌, ◌<◌, ◌≤◌, IfOk, length, take, false, slice_set, true};
ghost use Rattle.ad_base.specs.declared.layout.TheConstants.{LOCAL_WORDS, WORD_BYTES};
ghost use Rattle.ad_elf.specs.Below.{each};
ghost use Rattle.ad_parts.specs.Area.{area_in};
ghost use Rattle.ad_parts.specs.Layout.{area_to};
ghost use Rattle.ad_parts.specs.declared.layout.Group.TheVariants as group;
ghost use Rattle.ad_base.specs.declared.image.Cell.TheVariants.{Off};
ghost use Rattle.ad_tables.specs.Symbols.{resolved};
ghost use Rattle.ad_tables.specs.Tables.{section_words, symbol_of};
ghost use Rattle.ad_reloc.specs.Image.{cell_at, cells, local_at, makes_word, movable_offset, offset_of, other_cell, pointed, table, word_of};
ghost use Rattle.ad_reloc.specs.Addresses.{field_offset};
ghost use Rattle.ad_reloc.specs.Private.Linking.{CanLink, tables_of};
ghost use Rattle.ad_reloc.specs.Private.Small.{IsLow};
ghost use Rattle.ad_reloc.specs.Private.Parts.{ArePointersFine, IsPointerFine, PointsAt};

use crate::addresses::{address_of, table_from};
use crate::linking::Linking;
use ad_base::{Cell, OutOfMemory, PAGE_BYTES, TABLE_PAGES, WORD_BYTES, field_u64};
use ad_elf::Rela;
use ad_tables::{Resolved, resolve};
use std::alloc::Global;

impl<'a> Linking<'a> {
    /// The words of the fixed table.
    pub(crate) fn table_words(&self, alloc: Global) -> Result<Vec<u64>, OutOfMemory>
        requires { CanLink self.now }
        ensures { IfOk result (λ words. words.items ≡ table self.now.object.now self.now.layout.now (tables_of self.now) self.now.fixed) }
    {
        let symbols = self.table.symbols();
        let mut words = Vec::new(alloc);
        for k in 0..symbols.len() {
            words.push(self.word_of(symbols[k]))?;
        }
        Ok(words)
    }

    /// The address of what a symbol stands for.
    fn word_of(&self, symbol: u64) -> u64
        requires { CanLink self.now }
        ensures { result ≡ word_of self.now.object.now self.now.layout.now self.now.fixed symbol }
    {
        match resolve(self.object, self.layout, symbol) {
            None => 0,
            Some(resolved) => address_of(self.fixed, resolved) as u64,
        }
    }

    /// The words of the local area, of the movable part's bytes.
    pub(crate) fn cells(&self, alloc: Global, movable: &[u8]) -> Result<Vec<Cell>, OutOfMemory>
        requires link { CanLink self.now }
        requires words { section_words self.now.layout.now + length (tables_of self.now).local ≤ LOCAL_WORDS }
        requires part { length movable.now ≡ area_to self.now.layout.now.sizes (area_in true group.Writable) }
        requires pointers { ArePointersFine self.now.object.now self.now.layout.now }
        ensures { IfOk result (λ out. out.items ≡ cells self.now.object.now self.now.layout.now (tables_of self.now) movable.now) }
    {
        let mut cells = self.other_cells(alloc, movable)?;
        let relas = self.object.relas.as_slice();
        for k in 0..relas.len() {
            self.point(&relas[k], &mut cells);
        }
        Ok(cells)
    }

    /// The words of the local area that no entry points from.
    fn other_cells(&self, alloc: Global, movable: &[u8]) -> Result<Vec<Cell>, OutOfMemory>
        requires link { CanLink self.now }
        requires words { section_words self.now.layout.now + length (tables_of self.now).local ≤ LOCAL_WORDS }
        requires part { length movable.now ≡ area_to self.now.layout.now.sizes (area_in true group.Writable) }
        ensures { IfOk result (λ out. out.items ≡ each (other_cell self.now.object.now self.now.layout.now (tables_of self.now) movable.now) (section_words self.now.layout.now + length (tables_of self.now).local)) }
    {
        let symbols = self.local.symbols();
        let (words, from) = (self.section_words(), self.local_from());
        let mut cells = Vec::new(alloc);
        for k in 0..words {
            cells.push(Cell::Num(field_u64(movable, from + WORD_BYTES * k)))?;
        }
        for k in 0..symbols.len() {
            cells.push(Cell::Off(self.offset_of(symbols[k])))?;
        }
        Ok(cells)
    }

    /// The words of the sections of the local area.
    fn section_words(&self) -> u64
        requires { CanLink self.now }
        ensures { result ≡ section_words self.now.layout.now }
    {
        (self.layout.sizes.local_bytes as u64 + (WORD_BYTES - 1)) / WORD_BYTES
    }

    /// Where the local area begins in its part.
    fn local_from(&self) -> u64
        ensures value { result ≡ local_at self.now.layout.now 0 }
        ensures small { result < 2 ^ 36 }
    {
        table_from(self.layout.sizes, true) + u64::from(TABLE_PAGES) * PAGE_BYTES
    }

    /// The offset of a symbol in the movable part.
    fn offset_of(&self, symbol: u64) -> u64
        requires { CanLink self.now }
        ensures { result ≡ offset_of (resolved self.now.layout.now.spots self.now.object.now.symbols symbol) }
    {
        match resolve(self.object, self.layout, symbol) {
            None => 0,
            Some(resolved) => movable_offset(resolved),
        }
    }

    /// Sets the word that an entry points from, if it does.
    fn point(&self, rela: &Rela, cells: &mut [Cell])
        requires link { CanLink self.now }
        requires fine { makes_word self.now.object.now self.now.layout.now rela.now ≡ true → IsPointerFine self.now.layout.now (length cells.old) rela.now }
        ensures other { makes_word self.now.object.now self.now.layout.now rela.now ≡ false → cells.new ≡ cells.old }
        ensures word { makes_word self.now.object.now self.now.layout.now rela.now ≡ true → PointsAt self.now.object.now self.now.layout.now rela.now cells.old cells.new }
        ensures whole { length cells.new ≡ length cells.old }
    {
        if self.makes_word(rela) {
            let word = (self.field_offset(rela) as u64 - self.local_from()) / WORD_BYTES;
            cells[word as usize] = Cell::Off(self.pointed(rela));
        }
    }

    /// What an entry points to: an offset in the movable part, modulo 2^64.
    fn pointed(&self, rela: &Rela) -> u64
        requires { CanLink self.now }
        ensures { Off result ≡ pointed self.now.object.now self.now.layout.now rela.now }
    {
        self.offset_of(rela.symbol).wrapping_add_signed(rela.addend)
    }
}

/// The offset of what is in the movable part.
fn movable_offset(symbol: Resolved) -> u64
    requires { IsLow symbol }
    ensures { result ≡ movable_offset symbol }
{
    match symbol {
        Resolved::Movable(offset) => offset as u64,
        Resolved::Immovable(_) | Resolved::Import(_) | Resolved::Number(_) => 0,
    }
}
