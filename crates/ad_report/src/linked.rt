//! The text that is printed of a linked module.

ghost use Rattle.std.specs.Prelude.{◌≡◌, ◌++◌, IfOk, OnOk};
ghost use Rattle.std.specs.List.{enumerate_from, flat_map};
ghost use Rattle.ad_base.specs.Image.{IsWhole};
ghost use Rattle.ad_report.specs.Listing.{cell_text, export_line, fixed_line, listing, local_line, movable_line, part_line, table_line};

use crate::printing::print;
use ad_base::{Cell, Export, Image, LOCAL_PAGES, OutOfMemory, STUB_PAGES, TABLE_PAGES};
use std::alloc::Global;

/// The listing of a linked module: the pages of its parts, its exports with their offsets in bytes, the words of its local
/// area and those of its fixed table. It fails for want of memory alone.
#[tactic(auto, unfolding(crate::specs::Listing::listing))]
pub fn listing(alloc: Global, image: &Image) -> Result<Vec<u8>, OutOfMemory>
    requires { IsWhole image.now }
    ensures { IfOk result (λ text. text.items ≡ listing image.now) }
{
    let mut text = Vec::new(alloc);
    movable_line(&mut text, image)?;
    fixed_line(&mut text, image)?;
    export_lines(&mut text, image.exports.as_slice())?;
    local_lines(&mut text, image.cells.as_slice())?;
    table_lines(&mut text, image.table.as_slice())?;
    Ok(text)
}

/// Appends the line of the movable part.
fn movable_line(text: &mut Vec<u8>, image: &Image) -> Result<(), OutOfMemory>
    requires { IsWhole image.now }
    ensures { OnOk result (text.new.items ≡ text.old.items ++ movable_line image.now) }
{
    let (text_pages, read, writable) = (image.text_pages, image.read_pages, image.data_pages);
    let pages = text_pages + STUB_PAGES + read + TABLE_PAGES + LOCAL_PAGES + writable;
    part_line(text, b"movable", pages, text_pages, read, writable)
}

/// Appends the line of the immovable part.
fn fixed_line(text: &mut Vec<u8>, image: &Image) -> Result<(), OutOfMemory>
    requires { IsWhole image.now }
    ensures { OnOk result (text.new.items ≡ text.old.items ++ fixed_line image.now) }
{
    let text_pages = image.fixed_text_pages;
    let (read, writable) = (image.fixed_read_pages, image.fixed_data_pages);
    let pages = text_pages + STUB_PAGES + read + TABLE_PAGES + writable;
    part_line(text, b"fixed", pages, text_pages, read, writable)
}

/// Appends the line of a part of so many pages.
#[tactic(auto, unfolding(crate::specs::Listing::part_line))]
fn part_line(
    text: &mut Vec<u8>,
    part: &[u8],
    pages: u16,
    text_pages: u16,
    read: u16,
    writable: u16,
) -> Result<(), OutOfMemory>
    ensures { OnOk result (text.new.items ≡ text.old.items ++ part_line part.now pages text_pages read writable) }
{
    text.extend_from_slice(part)?;
    print(
        text,
        format_args!(" pages {pages} text {text_pages} read {read} data {writable}\n"),
    )?;
    Ok(())
}

/// Appends a line for each export.
fn export_lines(text: &mut Vec<u8>, exports: &[Export]) -> Result<(), OutOfMemory>
    ensures { OnOk result (text.new.items ≡ text.old.items ++ flat_map export_line exports.now) }
{
    for export in exports {
        export_line(text, export)?;
    }
    Ok(())
}

/// Appends the line of an export.
#[tactic(auto, unfolding(crate::specs::Listing::export_line))]
fn export_line(text: &mut Vec<u8>, export: &Export) -> Result<(), OutOfMemory>
    ensures { OnOk result (text.new.items ≡ text.old.items ++ export_line export.now) }
{
    let offset = export.offset;
    text.extend_from_slice(b"export ")?;
    text.extend_from_slice(export.name.bytes())?;
    print(text, format_args!(" {offset}\n"))
}

/// Appends a line for each word of the local area.
fn local_lines(text: &mut Vec<u8>, cells: &[Cell]) -> Result<(), OutOfMemory>
    ensures { OnOk result (text.new.items ≡ text.old.items ++ flat_map local_line (enumerate_from 0 cells.now)) }
{
    for (entry, cell) in cells.iter().enumerate() {
        local_line(text, entry as u64, *cell)?;
    }
    Ok(())
}

/// Appends the line of a word of the local area.
#[tactic(auto, unfolding(crate::specs::Listing::local_line))]
fn local_line(text: &mut Vec<u8>, entry: u64, cell: Cell) -> Result<(), OutOfMemory>
    ensures { OnOk result (text.new.items ≡ text.old.items ++ local_line (entry, cell)) }
{
    print(text, format_args!("local {entry} "))?;
    cell_text(text, cell)?;
    text.extend_from_slice(b"\n")?;
    Ok(())
}

/// Appends what a word of the local area is.
fn cell_text(text: &mut Vec<u8>, cell: Cell) -> Result<(), OutOfMemory>
    ensures { OnOk result (text.new.items ≡ text.old.items ++ cell_text cell) }
{
    match cell {
        Cell::Off(offset) => print(text, format_args!("off {offset}")),
        Cell::Num(number) => print(text, format_args!("num {number}")),
    }
}

/// Appends a line for each word of the fixed table.
fn table_lines(text: &mut Vec<u8>, words: &[u64]) -> Result<(), OutOfMemory>
    ensures { OnOk result (text.new.items ≡ text.old.items ++ flat_map table_line (enumerate_from 0 words.now)) }
{
    for (entry, word) in words.iter().enumerate() {
        table_line(text, entry as u64, *word)?;
    }
    Ok(())
}

/// Appends the line of a word of the fixed table.
#[tactic(auto, unfolding(crate::specs::Listing::table_line))]
fn table_line(text: &mut Vec<u8>, entry: u64, word: u64) -> Result<(), OutOfMemory>
    ensures { OnOk result (text.new.items ≡ text.old.items ++ table_line (entry, word)) }
{
    print(text, format_args!("table {entry} {word}\n"))
}
