//! What an access to any address finds: to region 1, or to a byte of any piece.

ghost use Rattle.ad_base.specs.Segments.{Fetch, Load, Store};
ghost use Rattle.ad_call.specs.Private.Asks.{told_asked};
ghost use Rattle.ad_call.specs.Private.InPieces.{segments_in};
ghost use Rattle.ad_core.specs.Bus.{IsLoaded, IsStored};
ghost use Rattle.ad_core.specs.Memory.{fetched, loaded, stored};
ghost use Rattle.ad_isa.specs.Words.{IsSize};
ghost use Rattle.ad_call.specs.View.{with_asked};
ghost use Rattle.std.specs.Prelude.{◌≡◌, ◌%◌, ◌^◌, ◌<◌, IfOk};

use crate::pages::Pages;
use crate::pieces::Pieces;
use crate::spot::locate;
use ad_base::{FETCH_BYTES, GATE, REGION_BYTES};
use ad_core::{Fetched, Refusal, service_at};

/// What is found where an instruction is fetched, at the gate, a service or a byte of any piece.
#[inline(never)]
pub fn fetch_any<P: Pages>(pages: &mut P, pieces: &Pieces, at: u64) -> Fetched
    requires aligned { at % FETCH_BYTES ≡ 0 }
    requires place { (P.view pages.old).place ≡ pieces.now.under }
    ensures found { result ≡ fetched (segments_in pieces.now) at }
    ensures pages { P.view pages.new ≡ with_asked (P.view pages.old) (told_asked pieces.now.image.now pieces.now.under pieces.now.stack Fetch FETCH_BYTES at) }
{
    if at == GATE {
        return Fetched::Gate;
    }
    if at / REGION_BYTES == 1 {
        return service_at(at);
    }
    match locate(pages, pieces.image, pieces.stack, at) {
        Some(spot) => pieces.word(spot),
        None => Fetched::Fault,
    }
}

/// Loads so many bytes as a number, from a byte of any piece.
#[inline(never)]
pub fn load_any<P: Pages>(pages: &mut P, pieces: &Pieces, at: u64, size: u8) -> Result<u64, Refusal>
    requires size { IsSize size }
    requires aligned { at % size ≡ 0 }
    requires place { (P.view pages.old).place ≡ pieces.now.under }
    requires cells { (P.view pages.old).cells ≡ pieces.now.image.now.cells }
    ensures found { IsLoaded result (loaded size (segments_in pieces.now) at) }
    ensures fits { IfOk result (λ number. number < 256 ^ size) }
    ensures pages { P.view pages.new ≡ with_asked (P.view pages.old) (told_asked pieces.now.image.now pieces.now.under pieces.now.stack Load size at) }
{
    if at / REGION_BYTES == 1 {
        return Err(Refusal::Fault);
    }
    match locate(pages, pieces.image, pieces.stack, at) {
        Some(spot) => Ok(pieces.number(pages, spot, size)),
        None => Err(Refusal::Fault),
    }
}

/// Stores so many low bytes of a value, to a byte of any piece.
#[inline(never)]
pub fn store_any<P: Pages>(
    pages: &mut P,
    pieces: &mut Pieces,
    at: u64,
    size: u8,
    value: u64,
) -> Result<(), Refusal>
    requires size { IsSize size }
    requires aligned { at % size ≡ 0 }
    requires place { (P.view pages.old).place ≡ pieces.old.under }
    ensures segments { IsStored result (segments_in pieces.old) (segments_in pieces.new) (stored size value (segments_in pieces.old) at) }
    ensures image { pieces.new.image.now ≡ pieces.old.image.now }
    ensures under { pieces.new.under ≡ pieces.old.under }
    ensures stack { pieces.new.stack ≡ pieces.old.stack }
    ensures pages { P.view pages.new ≡ with_asked (P.view pages.old) (told_asked pieces.old.image.now pieces.old.under pieces.old.stack Store size at) }
{
    if at / REGION_BYTES == 1 {
        return Err(Refusal::Fault);
    }
    match locate(pages, pieces.image, pieces.stack, at) {
        Some(spot) => pieces.store(at, spot, size, value),
        None => Err(Refusal::Fault),
    }
}
