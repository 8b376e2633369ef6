//! What symbols stand for.

ghost use Rattle.std.specs.Prelude.{◌≡◌};
ghost use Rattle.ad_parts.specs.Symbols.{AreInOrder};
ghost use Rattle.ad_tables.specs.Symbols.{import, in_part, is_movable, resolved, service_of};

use ad_base::{K_ABORT, K_IN, K_NOTE, K_OUT};
use ad_elf::{Object, SHN_ABS, SHN_UNDEF, STB_GLOBAL, Symbol};
use ad_parts::{Layout, Position};

/// What a symbol stands for.
#[derive(Clone, Copy, Debug, PartialEq, Eq)]
pub enum Resolved {
    /// A place in the movable part, at this offset from its start, in bytes.
    Movable(u128),
    /// A place in the immovable part, at this offset from its start, in bytes.
    Immovable(u128),
    /// The service of this number.
    Import(u8),
    /// A number.
    Number(u64),
}

impl Resolved {
    /// Whether it is in the movable part.
    pub fn is_movable(self) -> bool
        ensures { result ≡ is_movable self }
    {
        match self {
            Resolved::Movable(_) => true,
            Resolved::Immovable(_) | Resolved::Import(_) | Resolved::Number(_) => false,
        }
    }
}

/// What symbol `number` of an object stands for that is laid out so, or nothing where it is unresolved. Symbol 0
/// is the number 0. Its section is found by halving.
#[tactic(auto, unfolding(crate::specs::Symbols::symbol_resolved))]
pub fn resolve(object: &Object, layout: &Layout, number: u64) -> Option<Resolved>
    requires { AreInOrder layout.now.spots }
    ensures { result ≡ resolved layout.now.spots object.now.symbols number }
{
    if number == 0 {
        return Some(Resolved::Number(0));
    }
    let symbol = object.symbols.as_slice().get(number as usize)?;
    match symbol.shndx {
        SHN_UNDEF => import(symbol),
        SHN_ABS => Some(Resolved::Number(symbol.value)),
        _ => in_part(layout.position(object, number)?),
    }
}

/// A symbol that is in one of the parts.
fn in_part(position: Position) -> Option<Resolved>
    ensures { result ≡ Some (in_part position) }
{
    if position.movable {
        Some(Resolved::Movable(position.offset))
    } else {
        Some(Resolved::Immovable(position.offset))
    }
}

/// A symbol that is undefined, as a service.
fn import(symbol: &Symbol) -> Option<Resolved>
    ensures { result ≡ import symbol.now }
{
    if symbol.bind == STB_GLOBAL {
        service_of(symbol.name.bytes()).map(Resolved::Import)
    } else {
        None
    }
}

/// The number of the service of this name.
#[tactic(auto, unfolding(crate::specs::Symbols::service_of))]
fn service_of(name: &[u8]) -> Option<u8>
    ensures { result ≡ service_of name.now }
{
    if name == b"k_note".as_slice() {
        Some(K_NOTE)
    } else if name == b"k_abort".as_slice() {
        Some(K_ABORT)
    } else if name == b"k_out".as_slice() {
        Some(K_OUT)
    } else if name == b"k_in".as_slice() {
        Some(K_IN)
    } else {
        None
    }
}
