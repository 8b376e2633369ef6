//! The image of an object.

ghost use Rattle.std.specs.Prelude.{◌≡◌, ◌+◌, ◌≤◌, ◌⊎◌, IfErr, IfOk, length, take, drop, true, false};
ghost use Rattle.ad_base.specs.Image.{IsWhole};
ghost use Rattle.ad_base.specs.Place.{IsModulePlace};
ghost use Rattle.ad_base.specs.declared.layout.TheConstants.{LOCAL_WORDS, STUB_PAGES, TABLE_PAGES, TABLE_WORDS};
ghost use Rattle.ad_elf.specs.Range.{IsInRange};
ghost use Rattle.ad_parts.specs.Area.{area_in};
ghost use Rattle.ad_parts.specs.Layout.{area_from, area_to};
ghost use Rattle.ad_parts.specs.Parts.{IsLayout};
ghost use Rattle.ad_parts.specs.declared.layout.Group.TheVariants as group;
ghost use Rattle.ad_tables.specs.Tables.{AreTables, section_words};
ghost use Rattle.ad_reloc.specs.Addresses.{table_from};
ghost use Rattle.ad_reloc.specs.Image.{IsImage, image_of, with_stubs};
ghost use Rattle.ad_reloc.specs.Private.Linking.{CanLink, tables_of};
ghost use Rattle.ad_reloc.specs.Private.Parts.{ArePointersFine, lists_of};
ghost use Rattle.ad_reloc.specs.Refusals.{IsRefused};
ghost use Rattle.ad_reloc.specs.declared.refusal.RelocRefusal.TheVariants.{OutOfMemory as MemoryWanted};

use crate::addresses::{stubs_from, table_from};
use crate::applicable::{check_relocations, link};
use crate::linking::Linking;
use crate::parts::{Parts, laid_part, part_bytes, put_bytes};
use crate::refusal::RelocRefusal;
use crate::stubs::stubs;
use ad_base::{Export, Image, Name, OutOfMemory, PAGE_BYTES, Place, Sequence};
use ad_elf::Object;
use ad_parts::{Layout, Sizes};
use ad_tables::TableSet;
use std::alloc::Global;

/// The image of an object that has this layout and these tables, with its immovable part at a place: its sections where they
/// go, with its relocations applied in their order; or the first reason why it has none. It takes time that is linear in
/// the bytes and the relocations but for looking up sections, symbols and words.
pub fn relocate(
    alloc: Global,
    object: &Object,
    layout: &Layout,
    tables: &TableSet,
    fixed: Place,
) -> Result<Image, RelocRefusal>
    requires range { IsInRange object.now }
    requires laid { IsLayout object.now layout.now }
    requires tables { AreTables object.now layout.now tables.now }
    requires place { IsModulePlace fixed }
    requires pages { fixed.pages ≡ layout.now.sizes.fixed_text_pages + STUB_PAGES + layout.now.sizes.fixed_read_pages + TABLE_PAGES + layout.now.sizes.fixed_data_pages }
    ensures image { IfOk result (λ i. IsImage object.now layout.now tables.now fixed i) }
    ensures whole { IfOk result IsWhole }
    ensures refused { IfErr result (λ r. (r ≡ MemoryWanted) ⊎ IsRefused object.now layout.now tables.now fixed r) }
{
    check_relocations(alloc, object, layout, tables, fixed)?;
    let linking = link(alloc, object, layout, tables, fixed)?;
    let mut parts = Parts {
        movable: laid_part(alloc, object, layout, true)?,
        fixed: laid_part(alloc, object, layout, false)?,
    };
    linking.apply_all(&mut parts);
    Ok(linking.image(alloc, &parts)?)
}

impl<'a> Linking<'a> {
    /// The image of parts to which the relocations were applied.
    fn image(&self, alloc: Global, parts: &Parts) -> Result<Image, OutOfMemory>
        requires link { CanLink self.now }
        requires local { section_words self.now.layout.now + length (tables_of self.now).local ≤ LOCAL_WORDS }
        requires words { length (tables_of self.now).fixed ≤ TABLE_WORDS }
        requires movable { length parts.now.movable.items ≡ area_to self.now.layout.now.sizes (area_in true group.Writable) }
        requires fixed { length parts.now.fixed.items ≡ area_to self.now.layout.now.sizes (area_in false group.Writable) }
        requires pointers { ArePointersFine self.now.object.now self.now.layout.now }
        ensures { IfOk result (λ i. i ≡ image_of self.now.object.now self.now.layout.now (tables_of self.now) self.now.fixed (lists_of parts.now)) }
    {
        let sizes = self.layout.sizes;
        Ok(Image {
            text_pages: sizes.text_pages,
            read_pages: sizes.read_pages,
            data_pages: sizes.data_pages,
            code: Sequence::of(self.code(alloc, &parts.movable, true)?),
            cells: Sequence::of(self.cells(alloc, &parts.movable)?),
            writable: Sequence::of(data_of(alloc, sizes, &parts.movable, true)?),
            table: Sequence::of(self.table_words(alloc)?),
            fixed_text_pages: sizes.fixed_text_pages,
            fixed_read_pages: sizes.fixed_read_pages,
            fixed_data_pages: sizes.fixed_data_pages,
            fixed_code: Sequence::of(self.code(alloc, &parts.fixed, false)?),
            fixed_data: Sequence::of(data_of(alloc, sizes, &parts.fixed, false)?),
            fixed: self.fixed,
            exports: Sequence::of(exports_of(alloc, self.layout.exports.as_slice())?),
        })
    }

    /// The text, the stubs and the read-only data of a part.
    fn code(&self, alloc: Global, part: &[u8], movable: bool) -> Result<Vec<u8>, OutOfMemory>
        requires link { CanLink self.now }
        requires part { table_from self.now.layout.now.sizes movable ≤ length part.now }
        requires words { length (tables_of self.now).fixed ≤ TABLE_WORDS }
        ensures { IfOk result (λ code. code.items ≡ with_stubs self.now.layout.now (tables_of self.now) movable (take (table_from self.now.layout.now.sizes movable) part.now)) }
    {
        let sizes = self.layout.sizes;
        let stubs = stubs(
            alloc,
            self.layout,
            movable,
            self.table.symbols().len() as u64,
        )?;
        let mut code = copy_of(alloc, &part[..table_from(sizes, movable) as usize])?;
        put_bytes(&mut code, stubs_from(sizes, movable) as usize, &stubs);
        Ok(code)
    }
}

/// The writable data of a part.
fn data_of(alloc: Global, sizes: Sizes, part: &[u8], movable: bool) -> Result<Vec<u8>, OutOfMemory>
    requires { area_from sizes (area_in movable group.Writable) ≤ length part.now }
    ensures { IfOk result (λ out. out.items ≡ drop (area_from sizes (area_in movable group.Writable)) part.now) }
{
    copy_of(alloc, &part[data_from(sizes, movable) as usize..])
}

/// The byte of its part at which the writable data begins.
fn data_from(sizes: Sizes, movable: bool) -> u64
    ensures { result ≡ area_from sizes (area_in movable group.Writable) }
{
    let pages = if movable {
        sizes.data_pages
    } else {
        sizes.fixed_data_pages
    };
    part_bytes(sizes, movable) - u64::from(pages) * PAGE_BYTES
}

/// The same bytes.
fn copy_of(alloc: Global, bytes: &[u8]) -> Result<Vec<u8>, OutOfMemory>
    ensures { IfOk result (λ out. out.items ≡ bytes.now) }
{
    let mut out = Vec::new(alloc);
    out.extend_from_slice(bytes)?;
    Ok(out)
}

/// The same exports.
fn exports_of(alloc: Global, exports: &[Export]) -> Result<Vec<Export>, OutOfMemory>
    ensures { IfOk result (λ out. out.items ≡ exports.now) }
{
    let mut out = Vec::new(alloc);
    for k in 0..exports.len() {
        out.push(Export {
            name: Name::of(alloc, exports[k].name.bytes())?,
            offset: exports[k].offset,
        })?;
    }
    Ok(out)
}
