//! The parts of an object, with its exports.

ghost use Rattle.std.specs.Prelude.{◌≡◌, ◌⊎◌, None, Some, IfOk, IfErr, OnOk};
ghost use Rattle.std.specs.List.{AllZip};
ghost use Rattle.ad_elf.specs.Range.{IsInRange};
ghost use Rattle.ad_parts.specs.declared.refusal.PartRefusal.TheVariants.{OutOfMemory as MemoryWanted};
ghost use Rattle.ad_parts.specs.Layout.{ends, sizes, spots};
ghost use Rattle.ad_parts.specs.Parts.{IsLayout, IsRefused, export_row, section_row};
ghost use Rattle.ad_parts.specs.Private.Lying.{AreInside};
ghost use Rattle.ad_parts.specs.Symbols.{AreInAreas, AreInOrder, LiesInArea};

use crate::arrange::{Placed, lay_out};
use crate::exports::{exports_of, first_repeated};
use crate::layout::Layout;
use crate::refusal::PartRefusal;
use ad_base::{Export, Name, Sequence};
use ad_elf::Object;
use std::alloc::Global;

/// Where the sections of an object go, and which of its symbols calls may enter; or why it has no
/// layout. It takes time that is linear in the sections, and in the symbols but for looking up their
/// sections and names.
pub fn split(alloc: Global, object: &Object) -> Result<Layout, PartRefusal>
    requires { IsInRange object.now }
    ensures laid { IfOk result (λ l. IsLayout object.now l) }
    ensures order { IfOk result (λ l. AreInOrder l.spots) }
    ensures sections { IfOk result (λ l. AllZip (LiesInArea l.sizes) object.now.sections l.spots) }
    ensures symbols { IfOk result (λ l. AreInAreas l.sizes l.spots object.now.symbols) }
    ensures refused { IfErr result (λ r. (r ≡ MemoryWanted) ⊎ IsRefused object.now r) }
{
    match lay_out(alloc, object) {
        Err(refusal) => Err(refusal),
        Ok(placed) => with_exports(alloc, object, placed),
    }
}

/// The layout of an object whose sections are placed so.
fn with_exports(alloc: Global, object: &Object, placed: Placed) -> Result<Layout, PartRefusal>
    requires fine { section_row object.now ≡ None }
    requires spots { placed.spots.items ≡ spots object.now.sections }
    requires sizes { placed.sizes ≡ sizes (ends object.now.sections) }
    requires order { AreInOrder placed.spots.items }
    requires symbols { AreInside placed.spots.items object.now.symbols }
    ensures laid { IfOk result (λ l. IsLayout object.now l) }
    ensures refused { IfErr result (λ r. (r ≡ MemoryWanted) ⊎ IsRefused object.now r) }
{
    let exports = exports_of(alloc, placed.spots.as_slice(), object.symbols.as_slice())?;
    match check_names(alloc, exports.as_slice()) {
        Err(refusal) => Err(refusal),
        Ok(()) => Ok(Layout {
            spots: Sequence::of(placed.spots),
            sizes: placed.sizes,
            exports: Sequence::of(exports),
        }),
    }
}

/// Whether there are exports, and each has a name of its own.
fn check_names(alloc: Global, exports: &[Export]) -> Result<(), PartRefusal>
    ensures fine { OnOk result (export_row exports.now ≡ None) }
    ensures refused { IfErr result (λ r. (r ≡ MemoryWanted) ⊎ (export_row exports.now ≡ Some r)) }
{
    if exports.is_empty() {
        return Err(PartRefusal::NoExport);
    }
    match first_repeated(alloc, exports)? {
        None => Ok(()),
        Some(k) => Err(PartRefusal::Duplicate(Name::of(alloc, exports[k].name.bytes())?)),
    }
}
