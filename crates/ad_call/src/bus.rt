//! The memory that a call of a module reaches.

ghost use Rattle.ad_base.specs.declared.role.Role.TheVariants.{Code};
ghost use Rattle.ad_base.specs.Place.{base_of};
ghost use Rattle.ad_call.specs.Asked.{page_asked};
ghost use Rattle.ad_call.specs.Private.Stored.{word_of_role};
ghost use Rattle.ad_call.specs.View.{with_asked};
ghost use Rattle.std.specs.Prelude.{◌≡◌, ◌+◌, ◌-◌, ◌%◌, ◌^◌, ◌<◌};

use crate::access::{fetch_any, load_any, store_any};
use crate::asked::Track;
use crate::bytes::number_at;
use crate::pages::Pages;
use crate::pieces::Pieces;
use crate::spot::Spot;
use ad_base::{Device, FETCH_BYTES, Notes, PAGE_BYTES, Role};
use ad_core::{Bus, Fetched, Refusal, Served, make_service};

/// The pieces of a module and a stack, of which the movable part is reached through its pages.
pub struct ModuleBus<'a, P: Pages> {
    pub pieces: Pieces<'a>,
    pub pages: P,
    pub device: Device,
    pub notes: Notes,
    ghost place: { (P.view pages).place ≡ pieces.under },
    ghost cells: { (P.view pages).cells ≡ pieces.image.now.cells },
}

impl<P: Pages> Bus for ModuleBus<'_, P> {
    ghost use Rattle.ad_call.specs.Private.Asks.{track_rule};
    ghost use Rattle.ad_call.specs.Private.InPieces.{segments_in};
    ghost use Rattle.ad_call.specs.Private.WholeWords.{segments-whole};

    type Track = Track<P::Origin>;

    ghost memory = { λ b. record {
      segments = segments_in b.pieces;
      notes = b.notes;
      queue = b.device;
    } };

    ghost track = { λ b. record {
      image = b.pieces.image.now;
      under = b.pieces.under;
      stack = b.pieces.stack;
      origin = (P.view b.pages).origin;
      asked = (P.view b.pages).asked;
    } };

    ghost rule = { track_rule };

    ghost whole_words = { λ b. segments-whole b.pieces.image.now b.pieces.under b.pieces.stack b.pieces.bytes.stack b.pieces.bytes.fixed b.pieces.bytes.writable b.pieces.whole b.pieces.fresh b.pieces.«data» };

    fn fetch(&mut self, at: u64) -> Fetched {
        let offset = at.wrapping_sub(self.pieces.bounds.text_base);
        if offset < self.pieces.bounds.clear_text {
            return fetch_text(&mut self.pages, &self.pieces, at);
        }
        fetch_any(&mut self.pages, &self.pieces, at)
    }

    fn load(&mut self, at: u64, size: u8) -> Result<u64, Refusal> {
        let offset = at.wrapping_sub(self.pieces.bounds.stack_base);
        if offset < self.pieces.bounds.clear_stack {
            return Ok(number_at(self.pieces.bytes.stack(), offset, size));
        }
        load_any(&mut self.pages, &self.pieces, at, size)
    }

    fn store(&mut self, at: u64, size: u8, value: u64) -> Result<(), Refusal> {
        let offset = at.wrapping_sub(self.pieces.bounds.stack_base);
        if offset < self.pieces.bounds.clear_stack {
            let spot = Spot {
                role: Role::Stack,
                offset,
            };
            return self.pieces.store(at, spot, size, value);
        }
        store_any(&mut self.pages, &mut self.pieces, at, size, value)
    }

    fn service(&mut self, number: u8, a0: u64) -> Served {
        make_service(number, a0, &mut self.notes, &mut self.device)
    }
}

/// The word that is fetched at an address of the text that nothing else covers. Its page is asked for.
#[inline(always)]
fn fetch_text<P: Pages>(pages: &mut P, pieces: &Pieces, at: u64) -> Fetched
    requires aligned { at % FETCH_BYTES ≡ 0 }
    requires clear { (at + (2 ^ 64 - pieces.now.bounds.text_base)) % 2 ^ 64 < pieces.now.bounds.clear_text }
    requires place { (P.view pages.old).place ≡ pieces.now.under }
    ensures word { result ≡ word_of_role pieces.now.image.now Code (at - base_of pieces.now.under) }
    ensures pages { P.view pages.new ≡ with_asked (P.view pages.old) (page_asked at) }
{
    let Some(page) = pages.page(at) else {
        unreachable!();
    };
    pieces.word(Spot {
        role: Role::Code,
        offset: page * PAGE_BYTES + at % PAGE_BYTES,
    })
}
