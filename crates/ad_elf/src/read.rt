//! A whole file is read: the rows one after another, and then what an object says.

ghost use Rattle.std.specs.Prelude.{◌≡◌, ◌⊎◌, IfErr, IfOk};
ghost use Rattle.ad_elf.specs.declared.refusal.ElfRefusal.TheVariants.{OutOfMemory as MemoryWanted};
ghost use Rattle.ad_elf.specs.Range.{IsInRange};
ghost use Rattle.ad_elf.specs.Refusals.{IsObject, IsRefused};

use crate::header::header_refusal;
use crate::object::Object;
use crate::refusal::ElfRefusal;
use crate::relas::read_relas;
use crate::sections::{read_sections, section_names};
use crate::symbols::read_symbols;
use ad_base::Sequence;
use std::alloc::Global;

/// What an object file says, or why it is refused: the first row of the table of refusals that holds,
/// with the first section, symbol or entry for which it does.
///
/// Each name is looked up once and copied, at most 4,096 bytes, also where many share one string; for all
/// else time and memory are linear in the file.
pub fn read_object(alloc: Global, file: &[u8]) -> Result<Object, ElfRefusal>
    ensures object { IfOk result (λ o. IsObject file.now o) }
    ensures range { IfOk result (λ o. IsInRange o) }
    ensures refused { IfErr result (λ r. (r ≡ MemoryWanted) ⊎ IsRefused file.now r) }
{
    if let Some(refusal) = header_refusal(file) {
        return Err(refusal);
    }
    let sections = read_sections(alloc, file)?;
    let names = section_names(file);
    let symbols = read_symbols(alloc, file, names)?;
    let relas = read_relas(alloc, file, names, symbols.len() as u64)?;
    Ok(Object {
        sections: Sequence::of(sections),
        symbols: Sequence::of(symbols),
        relas: Sequence::of(relas),
    })
}
