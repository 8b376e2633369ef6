//! The rows of all mappings.

ghost use Rattle.std.specs.Prelude.{◌≡◌, ◌++◌, IfOk, OnOk};
ghost use Rattle.ad_run.specs.Rows.{fixed_row, fixed_rows, AreMerged};

use ad_base::{Image, Kind, OutOfMemory, Row};
use std::alloc::Global;

/// The rows of the movable parts, of the stacks and of the immovable parts of these images, in order of mapping number.
pub fn merged(
    alloc: Global,
    code: &[Row],
    stacks: &[Row],
    images: &[Image],
) -> Result<Vec<Row>, OutOfMemory>
    ensures { IfOk result (λ rows. AreMerged (code.now ++ stacks.now ++ fixed_rows images.now) rows.items) }
{
    let mut rows = Vec::new(alloc);
    rows.extend_from_slice(code)?;
    rows.extend_from_slice(stacks)?;
    push_fixed(&mut rows, images)?;
    rows.sort_by_key(|row| row.mapping)?;
    Ok(rows)
}

/// Appends the rows of the immovable parts of these images.
fn push_fixed(rows: &mut Vec<Row>, images: &[Image]) -> Result<(), OutOfMemory>
    ensures { OnOk result (rows.new.items ≡ rows.old.items ++ fixed_rows images.now) }
{
    for number in 0..images.len() {
        rows.push(fixed_row(number as u64, &images[number]))?;
    }
    Ok(())
}

/// The row of a module's immovable part: it stays where it is.
fn fixed_row(number: u64, image: &Image) -> Row
    ensures { result ≡ fixed_row (number, image.now) }
{
    let place = image.fixed;
    Row {
        mapping: place.mapping,
        kind: Kind::Fixed,
        who: number,
        place,
        line: 0,
        unmaps: 0,
    }
}
