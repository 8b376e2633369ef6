//! The pages of the parts, and where the sections go in them.

ghost use Rattle.std.specs.Prelude.{◌≡◌, ◌+◌, ◌^◌, ◌<◌, [], All, IfOk, MatchResult, Some, None, sum_by, true};
ghost use Rattle.ad_parts.specs.Area.{area_of};
ghost use Rattle.ad_parts.specs.declared.area.Area.{Area};
ghost use Rattle.ad_parts.specs.Ends.{end_at, is_aligned};
ghost use Rattle.ad_parts.specs.Layout.{pages_of, pages_over, sizes, spot_at, spots_behind, start_page};

use crate::area::{Area, area_of};
use crate::ends::{Ends, NO_ENDS};
use crate::layout::{Sizes, Spot};
use ad_base::{LOCAL_PAGES, OutOfMemory, PAGE_BYTES, PART_PAGES, STUB_PAGES, TABLE_PAGES};
use ad_elf::Section;
use std::alloc::Global;

/// The pages of so many bytes.
#[tactic(auto, unfolding(crate::specs::Layout::pages_of))]
fn pages_of(bytes: u128) -> u128
    requires { bytes < 2 ^ 70 }
    ensures value { result ≡ pages_of bytes }
    ensures small { result < 2 ^ 60 }
{
    (bytes + (PAGE_BYTES as u128 - 1)) / PAGE_BYTES as u128
}

/// How long the groups are whose sections end there, or the pages of a part that are more than it may
/// have.
pub(crate) fn sizes_of(ends: Ends) -> Result<Sizes, u64>
    requires { (a : Area) → end_at ends a < 2 ^ 70 }
    ensures fine { IfOk result (λ z. z ≡ sizes ends) }
    ensures over { MatchResult result (λ z. pages_over ends ≡ None) (λ n. pages_over ends ≡ Some n) }
{
    let text = pages_of(ends.text);
    let read = pages_of(ends.read);
    let data = pages_of(ends.data);
    let movable = pages_together(text, read, data) + u128::from(LOCAL_PAGES);
    if movable > u128::from(PART_PAGES) {
        return Err(movable as u64);
    }
    let fixed_text = pages_of(ends.fixed_text);
    let fixed_read = pages_of(ends.fixed_read);
    let fixed_data = pages_of(ends.fixed_data);
    let fixed = pages_together(fixed_text, fixed_read, fixed_data);
    if fixed > u128::from(PART_PAGES) {
        return Err(fixed as u64);
    }
    Ok(Sizes {
        text_pages: text as u16,
        read_pages: read as u16,
        data_pages: data as u16,
        fixed_text_pages: fixed_text as u16,
        fixed_read_pages: fixed_read as u16,
        fixed_data_pages: fixed_data as u16,
        local_bytes: ends.local,
    })
}

/// The pages of a part but for the local area.
fn pages_together(text: u128, read: u128, written: u128) -> u128
    requires { text + read + written < 2 ^ 63 }
    ensures { result ≡ text + STUB_PAGES + read + TABLE_PAGES + written }
{
    text + u128::from(STUB_PAGES) + read + u128::from(TABLE_PAGES) + written
}

/// The page of its part at which an area begins.
fn start_page(sizes: Sizes, area: Area) -> u128
    ensures value { result ≡ start_page sizes area }
    ensures small { result < 2 ^ 20 }
{
    let stubs = u128::from(STUB_PAGES);
    let table = u128::from(TABLE_PAGES);
    let local = u128::from(LOCAL_PAGES);
    match area {
        Area::Text | Area::FixedText => 0,
        Area::ReadOnly => u128::from(sizes.text_pages) + stubs,
        Area::Local => u128::from(sizes.text_pages) + stubs + u128::from(sizes.read_pages) + table,
        Area::Writable => {
            u128::from(sizes.text_pages) + stubs + u128::from(sizes.read_pages) + table + local
        }
        Area::FixedReadOnly => u128::from(sizes.fixed_text_pages) + stubs,
        Area::FixedWritable => {
            u128::from(sizes.fixed_text_pages) + stubs + u128::from(sizes.fixed_read_pages) + table
        }
    }
}

/// Where a section goes whose area ended there before it.
#[tactic(auto, unfolding(crate::specs::Layout::spot_at))]
fn spot(sizes: Sizes, ends: Ends, section: &Section) -> Spot
    requires aligned { is_aligned section.now ≡ true }
    requires small { end_at ends (area_of section.now) < 2 ^ 127 }
    ensures { result ≡ spot_at sizes (end_at ends (area_of section.now)) section.now }
{
    let area = area_of(section);
    Spot {
        section: section.index,
        movable: area.is_movable(),
        group: area.group(),
        offset: start_page(sizes, area) * u128::from(PAGE_BYTES) + ends.begin(section),
    }
}

/// Where the sections go, each behind those before it, in parts of these sizes.
pub(crate) fn spots_of(
    alloc: Global,
    sections: &[Section],
    sizes: Sizes,
) -> Result<Vec<Spot>, OutOfMemory>
    requires aligned { All (λ s. is_aligned s ≡ true) sections.now }
    requires short { sum_by (λ s. s.size) sections.now < 2 ^ 65 }
    ensures { IfOk result (λ v. v.items ≡ spots_behind sizes [] sections.now) }
{
    let mut spots = Vec::new(alloc);
    let mut ends = NO_ENDS;
    for k in 0..sections.len() {
        let section = &sections[k];
        spots.push(spot(sizes, ends, section))?;
        ends = ends.behind(section);
    }
    Ok(spots)
}
