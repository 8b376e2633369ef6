//! The lines of mappings.

ghost use Rattle.std.specs.Prelude.{◌≡◌, ◌++◌, OnOk};
ghost use Rattle.std.specs.List.{flat_map};
ghost use Rattle.ad_report.specs.Mapping.{kind_text, map_line, who_text};

use crate::printing::print;
use crate::script::module_name;
use ad_base::{Kind, OutOfMemory, Row};
use ad_script::Script;

/// Appends a line for each mapping.
pub fn map_lines(text: &mut Vec<u8>, script: &Script, rows: &[Row]) -> Result<(), OutOfMemory>
    ensures { OnOk result (text.new.items ≡ text.old.items ++ flat_map (map_line script.now) rows.now) }
{
    for row in rows {
        map_line(text, script, row)?;
    }
    Ok(())
}

/// Appends the line of a mapping.
#[tactic(auto, unfolding(crate::specs::Mapping::map_line))]
fn map_line(text: &mut Vec<u8>, script: &Script, row: &Row) -> Result<(), OutOfMemory>
    ensures { OnOk result (text.new.items ≡ text.old.items ++ map_line script.now row.now) }
{
    let mapping = row.mapping;
    let region = row.place.region;
    let start = row.place.start;
    let pages = row.place.pages;
    let line = row.line;
    let unmaps = row.unmaps;
    print(text, format_args!("map {mapping} "))?;
    text.extend_from_slice(kind_text(row.kind))?;
    text.extend_from_slice(b" ")?;
    who_text(text, script, row.kind, row.who)?;
    print(
        text,
        format_args!(
            " region {region} start {start} pages {pages} retired {line} unmapped {unmaps}\n"
        ),
    )?;
    Ok(())
}

/// What a mapping is, in a word.
fn kind_text(kind: Kind) -> &'static [u8]
    ensures { result.now ≡ kind_text kind }
{
    match kind {
        Kind::Code => b"code",
        Kind::Fixed => b"fixed",
        Kind::Stack => b"stack",
    }
}

/// Appends whose mapping it is: a module's, or a worker's.
fn who_text(text: &mut Vec<u8>, script: &Script, kind: Kind, who: u64) -> Result<(), OutOfMemory>
    ensures { OnOk result (text.new.items ≡ text.old.items ++ who_text script.now kind who) }
{
    match kind {
        Kind::Code | Kind::Fixed => {
            text.extend_from_slice(module_name(script, who))?;
            Ok(())
        }
        Kind::Stack => print(text, format_args!("w{who}")),
    }
}
