//! Where an address lies among the pieces of a module and the stack.

ghost use Rattle.std.specs.Prelude.{◌≡◌, ◌+◌, ◌*◌, ◌^◌, ◌<◌, [], ◌∷◌};
ghost use Rattle.ad_base.specs.Image.{movable_pages, IsWhole};
ghost use Rattle.ad_base.specs.Layout.{fixed_roles, movable_roles, size_of, text_bytes};
ghost use Rattle.ad_base.specs.declared.role.Role.TheVariants.{Cells, Data};
ghost use Rattle.ad_call.specs.Private.Asks.{place_asked};
ghost use Rattle.ad_call.specs.Private.Spots.{bounds_of, is_apart, spot_at, spot_in, IsLow};
ghost use Rattle.ad_call.specs.View.{with_asked};

use crate::pages::Pages;
use ad_base::{
    Image, LOCAL_PAGES, MODULE_REGION, PAGE_BYTES, Place, REGION_BYTES, Role, STACK_PAGES,
    STUB_PAGES, TABLE_PAGES,
};

/// The bytes of a stack.
const STACK_BYTES: u64 = STACK_PAGES as u64 * PAGE_BYTES;

/// The bytes of a fixed table, and of the local area.
const TABLE_BYTES: u64 = TABLE_PAGES as u64 * PAGE_BYTES;

const LOCAL_BYTES: u64 = LOCAL_PAGES as u64 * PAGE_BYTES;

/// The first address that a place may have.
const FIRST_PLACE: u64 = MODULE_REGION * REGION_BYTES;

/// A byte of a piece.
#[derive(Clone, Copy, Debug)]
pub struct Spot {
    /// What the piece holds.
    pub role: Role,
    /// How many bytes of the piece lie before.
    pub offset: u64,
}

/// Where the bytes lie that most accesses reach, worked out once for a call.
#[derive(Clone, Copy, Debug)]
pub struct Bounds {
    /// The address of the first byte of the stack.
    pub stack_base: u64,
    /// The address of the first byte of the movable part, which its text begins.
    pub text_base: u64,
    /// The bytes of the stack, if it lies behind region 1; else 0. One of them is found with no other look.
    pub clear_stack: u64,
    /// The bytes of the text and of the stub page behind it, if they lie behind region 1 and apart from the stack and the
    /// immovable part; else 0.
    pub clear_text: u64,
}

impl Bounds {
    /// Those of a module and a stack.
    pub fn of(image: &Image, under: Place, stack: Place) -> Bounds
        ensures found { result ≡ bounds_of image.now under stack }
        ensures low { IsLow result }
    {
        let stack_base = stack.base();
        let text_base = under.base();
        let text_bytes = text_bytes(image.text_pages);
        let fixed_bytes = u64::from(image.fixed.pages) * PAGE_BYTES;
        let is_text_alone = is_apart(stack_base, STACK_BYTES, text_base, text_bytes)
            && is_apart(image.fixed.base(), fixed_bytes, text_base, text_bytes)
            && text_base >= FIRST_PLACE;
        let is_stack_high = stack_base >= FIRST_PLACE;
        Bounds {
            stack_base,
            text_base,
            clear_stack: if is_stack_high { STACK_BYTES } else { 0 },
            clear_text: if is_text_alone { text_bytes } else { 0 },
        }
    }
}

/// Whether so many bytes from a base on, and others from another on, have none in common.
fn is_apart(base: u64, bytes: u64, other: u64, more: u64) -> bool
    requires first { base + bytes < 2 ^ 64 }
    requires second { other + more < 2 ^ 64 }
    ensures { result ≡ is_apart base bytes other more }
{
    base + bytes <= other || other + more <= base
}

/// The byte at an address: of the stack, else of the immovable part, else of the movable one, as its pages say.
pub fn locate<P: Pages>(pages: &mut P, image: &Image, stack: Place, at: u64) -> Option<Spot>
    requires whole { IsWhole image.now }
    requires sized { (P.view pages.old).place.pages ≡ movable_pages image.now }
    ensures spot { result ≡ spot_at image.now (P.view pages.old).place stack at }
    ensures pages { P.view pages.new ≡ with_asked (P.view pages.old) (place_asked image.now stack at) }
{
    let stack_base = stack.base();
    if at >= stack_base && at - stack_base < u64::from(STACK_PAGES) * PAGE_BYTES {
        return Some(Spot {
            role: Role::Stack,
            offset: at - stack_base,
        });
    }
    let fixed_base = image.fixed.base();
    if at >= fixed_base && at - fixed_base < u64::from(image.fixed.pages) * PAGE_BYTES {
        return fixed_spot(image, at - fixed_base);
    }
    let page = pages.page(at)?;
    movable_spot(image, page * PAGE_BYTES + at % PAGE_BYTES)
}

/// The byte so far behind the first of the immovable part.
fn fixed_spot(image: &Image, offset: u64) -> Option<Spot>
    ensures { result ≡ spot_in (size_of image.now) fixed_roles offset }
{
    let text = text_bytes(image.fixed_text_pages);
    if offset < text {
        return Some(Spot {
            role: Role::FixedCode,
            offset,
        });
    }
    let offset = offset - text;
    let read = bytes_of_pages(image.fixed_read_pages);
    if offset < read {
        return Some(Spot {
            role: Role::FixedConstants,
            offset,
        });
    }
    let offset = offset - read;
    if offset < TABLE_BYTES {
        return Some(Spot {
            role: Role::FixedTable,
            offset,
        });
    }
    let offset = offset - TABLE_BYTES;
    if offset < bytes_of_pages(image.fixed_data_pages) {
        return Some(Spot {
            role: Role::FixedData,
            offset,
        });
    }
    None
}

/// The byte so far behind the first of the movable part.
fn movable_spot(image: &Image, offset: u64) -> Option<Spot>
    ensures { result ≡ spot_in (size_of image.now) movable_roles offset }
{
    let text = text_bytes(image.text_pages);
    if offset < text {
        return Some(Spot {
            role: Role::Code,
            offset,
        });
    }
    let offset = offset - text;
    let read = bytes_of_pages(image.read_pages);
    if offset < read {
        return Some(Spot {
            role: Role::Constants,
            offset,
        });
    }
    let offset = offset - read;
    if offset < TABLE_BYTES {
        return Some(Spot {
            role: Role::Table,
            offset,
        });
    }
    writable_spot(image, offset - TABLE_BYTES)
}

/// The byte so far behind the first of the local area of the movable part.
fn writable_spot(image: &Image, offset: u64) -> Option<Spot>
    ensures { result ≡ spot_in (size_of image.now) (Cells ∷ Data ∷ []) offset }
{
    if offset < LOCAL_BYTES {
        return Some(Spot {
            role: Role::Cells,
            offset,
        });
    }
    let offset = offset - LOCAL_BYTES;
    if offset < bytes_of_pages(image.data_pages) {
        return Some(Spot {
            role: Role::Data,
            offset,
        });
    }
    None
}

/// The bytes of so many pages.
fn bytes_of_pages(pages: u16) -> u64
    ensures { result ≡ pages * PAGE_BYTES }
{
    u64::from(pages) * PAGE_BYTES
}

/// The bytes of the text pages, and of the stub page behind them.
pub fn text_bytes(text_pages: u16) -> u64
    ensures { result ≡ text_bytes text_pages }
{
    (u64::from(text_pages) + u64::from(STUB_PAGES)) * PAGE_BYTES
}
