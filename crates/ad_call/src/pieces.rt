//! What is found at a byte of a piece of a module or a stack, and what is put there.

ghost use Rattle.ad_base.specs.declared.layout.TheConstants.{LOCAL_WORDS, PAGE_BYTES, REGION_BYTES, STACK_PAGES};
ghost use Rattle.ad_base.specs.Image.{movable_pages, IsWhole};
ghost use Rattle.ad_base.specs.Layout.{local_word, page_of_words, size_of};
ghost use Rattle.ad_base.specs.Place.{base_of};
ghost use Rattle.ad_call.specs.Call.{HasData};
ghost use Rattle.ad_call.specs.Private.Asks.{cell_asked};
ghost use Rattle.ad_call.specs.Private.Spots.{bounds_of, spot_at, IsLow};
ghost use Rattle.ad_call.specs.Private.Stored.{word_in};
ghost use Rattle.ad_call.specs.View.{with_asked};
ghost use Rattle.ad_call.specs.declared.asked.Asked.TheVariants as asked;
ghost use Rattle.ad_core.specs.Bus.{IsStored};
ghost use Rattle.ad_core.specs.Image.{bytes_under};
ghost use Rattle.ad_core.specs.Memory.{stored};
ghost use Rattle.ad_isa.specs.Words.{IsSize};
ghost use Rattle.byteorder.specs.Endian.{little_number};
ghost use Rattle.std.specs.Prelude.{◌≡◌, ◌≢◌, ◌≤◌, ◌<◌, ◌+◌, ◌*◌, ◌/◌, ◌%◌, ◌^◌, ◌∷◌, [], Some, drop, length, map, slice_index_or};

use crate::bytes::{bytes_of_word, number_at};
use crate::held::CallBytes;
use crate::pages::Pages;
use crate::spot::{Bounds, Spot, text_bytes};
use ad_base::{FETCH_BYTES, Image, Place, Role, WORD_BYTES, field_u32};
use ad_core::{Fetched, Refusal};

/// The pieces of a module and of a stack: where they lie, and what they hold.
#[derive(Drop)]
pub struct Pieces<'a> {
    pub image: &'a Image,
    /// Where the movable part lies.
    pub under: Place,
    /// Where the stack lies.
    pub stack: Place,
    pub bounds: Bounds,
    /// What the stack and the data hold.
    pub bytes: CallBytes,
    ghost whole: { IsWhole image.now },
    ghost sized: { under.pages ≡ movable_pages image.now },
    ghost bounded: { bounds ≡ bounds_of image.now under stack },
    ghost low: { IsLow bounds },
    ghost fresh: { length bytes.stack ≡ STACK_PAGES * PAGE_BYTES },
    ghost data: { HasData image.now bytes.writable bytes.fixed },
}

impl Pieces<'_> {
    ghost use Rattle.ad_call.specs.Private.InPieces.{segments_in};

    /// The word that is fetched at a byte of a piece.
    #[inline(always)]
    pub fn word(&self, spot: Spot) -> Fetched
        requires { spot.offset + FETCH_BYTES ≤ size_of self.now.image.now spot.role }
        ensures { result ≡ word_in self.now.image.now spot }
    {
        match spot.role {
            Role::Code => Fetched::Word(field_u32(self.image.code.as_slice(), spot.offset)),
            Role::FixedCode => {
                Fetched::Word(field_u32(self.image.fixed_code.as_slice(), spot.offset))
            }
            _ => Fetched::Denied,
        }
    }

    /// The number of so many bytes from a byte of a piece on. A word of the local area is asked of the movable part's
    /// pages.
    #[inline(always)]
    pub fn number<P: Pages>(&self, pages: &mut P, spot: Spot, size: u8) -> u64
        requires size { IsSize size }
        requires aligned { spot.offset % size ≡ 0 }
        requires inside { spot.offset < size_of self.now.image.now spot.role }
        requires place { (P.view pages.old).place ≡ self.now.under }
        requires cells { (P.view pages.old).cells ≡ self.now.image.now.cells }
        ensures found { result ≡ little_number size (drop spot.offset (bytes_under self.now.image.now self.now.under
            self.now.bytes.stack self.now.bytes.fixed self.now.bytes.writable spot.role)) }
        ensures fits { result < 256 ^ size }
        ensures pages { P.view pages.new ≡ with_asked (P.view pages.old) (cell_asked spot) }
    {
        let image = self.image;
        match spot.role {
            Role::Stack => number_at(self.bytes.stack(), spot.offset, size),
            Role::FixedCode => number_at(image.fixed_code.as_slice(), spot.offset, size),
            Role::FixedConstants => {
                let text = text_bytes(image.fixed_text_pages);
                number_at(image.fixed_code.as_slice(), text + spot.offset, size)
            }
            Role::FixedTable | Role::Table => self.entry(spot.offset, size),
            Role::FixedData => number_at(self.bytes.fixed(), spot.offset, size),
            Role::Code => number_at(image.code.as_slice(), spot.offset, size),
            Role::Constants => {
                let text = text_bytes(image.text_pages);
                number_at(image.code.as_slice(), text + spot.offset, size)
            }
            Role::Cells => local_number(pages, spot.offset, size),
            Role::Data => number_at(self.bytes.writable(), spot.offset, size),
        }
    }

    /// The number of so many bytes of the table.
    fn entry(&self, offset: u64, size: u8) -> u64
        requires size { IsSize size }
        requires aligned { offset % size ≡ 0 }
        requires inside { offset < PAGE_BYTES }
        ensures found { result ≡ little_number size (drop offset (page_of_words self.now.image.now.table)) }
        ensures fits { result < 256 ^ size }
    {
        let word = word_at(self.image.table.as_slice(), offset / WORD_BYTES);
        bytes_of_word(word, offset % WORD_BYTES, size)
    }

    /// Stores so many low bytes of a value at an address, which is this byte of a piece, if the piece may be stored to.
    #[inline(always)]
    pub fn store(&mut self, at: u64, spot: Spot, size: u8, value: u64) -> Result<(), Refusal>
        requires size { IsSize size }
        requires aligned { at % size ≡ 0 }
        requires spot { spot_at self.old.image.now self.old.under self.old.stack at ≡ Some spot }
        requires behind { at / REGION_BYTES ≢ 1 }
        ensures segments { IsStored result (segments_in self.old) (segments_in self.new) (stored size value (segments_in self.old) at) }
        ensures image { self.new.image.now ≡ self.old.image.now }
        ensures under { self.new.under ≡ self.old.under }
        ensures stack { self.new.stack ≡ self.old.stack }
    {
        self.bytes.put(spot, size, value)
    }
}

/// The number of so many bytes of the local area of a movable part.
fn local_number<P: Pages>(pages: &mut P, offset: u64, size: u8) -> u64
    requires size { IsSize size }
    requires aligned { offset % size ≡ 0 }
    requires inside { offset < PAGE_BYTES }
    requires few { length (P.view pages.old).cells ≤ LOCAL_WORDS }
    ensures found { result ≡ little_number size (drop offset (page_of_words (map (local_word (base_of (P.view pages.old).place)) (P.view pages.old).cells))) }
    ensures fits { result < 256 ^ size }
    ensures pages { P.view pages.new ≡ with_asked (P.view pages.old) (asked.Cell (offset / WORD_BYTES) ∷ []) }
{
    let word = pages.cell(offset / WORD_BYTES);
    bytes_of_word(word, offset % WORD_BYTES, size)
}

/// The word at a place in these, or 0 behind the last.
fn word_at(words: &[u64], at: u64) -> u64
    ensures { result ≡ slice_index_or words.now at 0 }
{
    let at = at as usize;
    if at < words.len() { words[at] } else { 0 }
}
