//! Whether the entries of an object are refused.

ghost use Rattle.std.specs.Prelude.{◌≡◌, ◌⊎◌, None, IfErr, IfOk, OnOk};
ghost use Rattle.ad_elf.specs.Range.{IsInRange};
ghost use Rattle.ad_parts.specs.Parts.{IsLayout};
ghost use Rattle.ad_tables.specs.Tables.{AreTables};
ghost use Rattle.ad_reloc.specs.declared.refusal.RelocRefusal.TheVariants.{OutOfMemory as MemoryWanted};
ghost use Rattle.ad_reloc.specs.Private.Linking.{CanLink, tables_of};
ghost use Rattle.ad_reloc.specs.Refusals.{IsRefused, first_row};

use crate::highs::Highs;
use crate::index::Index;
use crate::linking::Linking;
use crate::refusal::RelocRefusal;
use ad_base::{OutOfMemory, Place};
use ad_elf::Object;
use ad_parts::Layout;
use ad_tables::TableSet;
use std::alloc::Global;

/// Whether the relocations of an object may be applied that has this layout and these tables, with its immovable part at a
/// place; or the first reason why not. It takes time that is linear in the relocations but for looking up sections, symbols
/// and words.
pub(crate) fn check_relocations(
    alloc: Global,
    object: &Object,
    layout: &Layout,
    tables: &TableSet,
    fixed: Place,
) -> Result<(), RelocRefusal>
    requires range { IsInRange object.now }
    requires laid { IsLayout object.now layout.now }
    requires tables { AreTables object.now layout.now tables.now }
    ensures fine { OnOk result (first_row object.now layout.now tables.now fixed ≡ None) }
    ensures refused { IfErr result (λ r. (r ≡ MemoryWanted) ⊎ IsRefused object.now layout.now tables.now fixed r) }
{
    let linking = link(alloc, object, layout, tables, fixed)?;
    let relas = object.relas.as_slice();
    for k in 0..relas.len() {
        linking.check(&relas[k], k)?;
    }
    Ok(())
}

/// What the entries of an object are looked at with.
pub(crate) fn link<'a>(
    alloc: Global,
    object: &'a Object,
    layout: &'a Layout,
    tables: &'a TableSet,
    fixed: Place,
) -> Result<Linking<'a>, OutOfMemory>
    requires range { IsInRange object.now }
    requires laid { IsLayout object.now layout.now }
    requires tables { AreTables object.now layout.now tables.now }
    ensures link { IfOk result CanLink }
    ensures object { IfOk result (λ k. k.object.now ≡ object.now) }
    ensures layout { IfOk result (λ k. k.layout.now ≡ layout.now) }
    ensures tables { IfOk result (λ k. tables_of k ≡ tables.now) }
    ensures fixed { IfOk result (λ k. k.fixed ≡ fixed) }
{
    Ok(Linking {
        object,
        layout,
        local: Index::of(alloc, tables.local.as_slice())?,
        table: Index::of(alloc, tables.fixed.as_slice())?,
        highs: Highs::of(alloc, object.relas.as_slice())?,
        fixed,
    })
}
