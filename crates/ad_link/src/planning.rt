//! The first half of a link: all that needs no place.

ghost use Rattle.std.specs.Prelude.{◌≡◌, ◌≤◌, ◌⊎◌, IfErr, IfOk};
ghost use Rattle.ad_link.specs.Plan.{fixed_pages, movable_pages, IsPlan, IsRefused};
ghost use Rattle.ad_link.specs.declared.refusal.LinkRefusal.TheVariants.{OutOfMemory as MemoryWanted};

use crate::refusal::LinkRefusal;
use ad_base::{LOCAL_PAGES, PART_PAGES, STUB_PAGES, TABLE_PAGES};
use ad_elf::{ElfRefusal, Object, read_object};
use ad_parts::{Layout, PartRefusal, split};
use ad_tables::{TableRefusal, TableSet, tables};
use std::alloc::Global;
use std::marker::Model;

/// A module that is linked but for the place of its immovable part.
#[derive(Debug, Drop)]
pub struct LinkPlan {
    pub(crate) object: Object,
    pub(crate) layout: Layout,
    pub(crate) tables: TableSet,
}

impl Model for LinkPlan {
    ghost use Rattle.ad_link.specs.Plan.{IsSound, Planned};

    ghost Value = { Planned };

    ghost view = { λ p. record { object = p.object; layout = p.layout; tables = p.tables } };

    ghost invariant = { λ p. IsSound (record { object = p.object; layout = p.layout; tables = p.tables }) };
}

/// Reads an object file, lays its sections out and lists what its tables hold; or says which stage refuses it first, and
/// why. It takes time that is linear in the file but for looking up names, sections and symbols.
pub fn plan(alloc: Global, bytes: &[u8]) -> Result<LinkPlan, LinkRefusal>
    ensures planned { IfOk result (λ p. IsPlan bytes.now p) }
    ensures refused { IfErr result (λ r. (r ≡ MemoryWanted) ⊎ IsRefused bytes.now r) }
{
    let object = match read_object(alloc, bytes) {
        Ok(object) => object,
        Err(ElfRefusal::OutOfMemory) => return Err(LinkRefusal::OutOfMemory),
        Err(refusal) => return Err(LinkRefusal::Object(refusal)),
    };
    let layout = match split(alloc, &object) {
        Ok(layout) => layout,
        Err(PartRefusal::OutOfMemory) => return Err(LinkRefusal::OutOfMemory),
        Err(refusal) => return Err(LinkRefusal::Parts(refusal)),
    };
    let tables = match tables(alloc, &object, &layout) {
        Ok(tables) => tables,
        Err(TableRefusal::OutOfMemory) => return Err(LinkRefusal::OutOfMemory),
        Err(refusal) => return Err(LinkRefusal::Tables(refusal)),
    };
    Ok(LinkPlan {
        object,
        layout,
        tables,
    })
}

impl LinkPlan {
    /// The pages of the movable part.
    pub fn movable_pages(&self) -> u16
        ensures pages { result ≡ movable_pages self.now.layout.sizes }
        ensures some { 1 ≤ result }
        ensures few { result ≤ PART_PAGES }
    {
        let sizes = &self.layout.sizes;
        sizes.text_pages
            + STUB_PAGES
            + sizes.read_pages
            + TABLE_PAGES
            + LOCAL_PAGES
            + sizes.data_pages
    }

    /// The pages of the immovable part.
    pub fn fixed_pages(&self) -> u16
        ensures pages { result ≡ fixed_pages self.now.layout.sizes }
        ensures some { 1 ≤ result }
        ensures few { result ≤ PART_PAGES }
    {
        let sizes = &self.layout.sizes;
        sizes.fixed_text_pages
            + STUB_PAGES
            + sizes.fixed_read_pages
            + TABLE_PAGES
            + sizes.fixed_data_pages
    }
}
