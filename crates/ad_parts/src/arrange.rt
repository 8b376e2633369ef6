//! The layout of the sections of an object.

ghost use Rattle.std.specs.Prelude.{◌≡◌, ◌⊎◌, None, Some, IfOk, IfErr, OnOk};
ghost use Rattle.std.specs.List.{AllZip};
ghost use Rattle.ad_elf.specs.Range.{IsInRange};
ghost use Rattle.ad_parts.specs.declared.refusal.PartRefusal.TheVariants.{OutOfMemory as MemoryWanted};
ghost use Rattle.ad_parts.specs.Layout.{ends, sizes, spots};
ghost use Rattle.ad_parts.specs.Parts.{section_row};
ghost use Rattle.ad_parts.specs.Private.Lying.{Lies};

use crate::ends::{ends_of, first_misaligned};
use crate::layout::{Sizes, Spot};
use crate::pages::{sizes_of, spots_of};
use crate::refusal::PartRefusal;
use ad_elf::Object;
use std::alloc::Global;

/// The sections of an object in their places.
#[derive(Debug, Drop)]
pub(crate) struct Placed {
    pub spots: Vec<Spot>,
    pub sizes: Sizes,
}

/// Where the sections of an object go, or why they have no layout. It takes time that is linear in the
/// sections.
pub(crate) fn lay_out(alloc: Global, object: &Object) -> Result<Placed, PartRefusal>
    requires { IsInRange object.now }
    ensures fine { OnOk result (section_row object.now ≡ None) }
    ensures spots { IfOk result (λ p. p.spots.items ≡ spots object.now.sections) }
    ensures lie { IfOk result (λ p. AllZip (Lies p.sizes) object.now.sections p.spots.items) }
    ensures sizes { IfOk result (λ p. p.sizes ≡ sizes (ends object.now.sections)) }
    ensures refused { IfErr result (λ r. (r ≡ MemoryWanted) ⊎ (section_row object.now ≡ Some r)) }
{
    let sections = object.sections.as_slice();
    if let Some(number) = first_misaligned(sections) {
        return Err(PartRefusal::Alignment(number));
    }
    let sizes = match sizes_of(ends_of(sections)) {
        Ok(sizes) => sizes,
        Err(pages) => return Err(PartRefusal::TooManyPages(pages)),
    };
    let spots = spots_of(alloc, sections, sizes)?;
    Ok(Placed { spots, sizes })
}
