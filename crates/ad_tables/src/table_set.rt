//! The tables of an object.

ghost use Rattle.std.specs.Prelude.{◌≡◌, ◌⊎◌, [], None, Some, IfOk, IfErr, MatchOption, OnOk, IfSome, IfNone, nat_lt, true};
ghost use Rattle.ad_base.specs.declared.layout.TheConstants.{LOCAL_WORDS};
ghost use Rattle.ad_elf.specs.Range.{IsInRange};
ghost use Rattle.ad_parts.specs.Parts.{IsLayout};
ghost use Rattle.ad_parts.specs.Symbols.{AreInOrder};
ghost use Rattle.ad_tables.specs.declared.refusal.TableRefusal.TheVariants.{OutOfMemory as MemoryWanted};
ghost use Rattle.ad_tables.specs.Private.Lists.{lists_of, over, with_need};
ghost use Rattle.ad_tables.specs.Tables.{AreTables, IsRefused, in_movable, name_of_symbol, need_of, section_words, unresolved_row};

use crate::entries::Entries;
use crate::need::{Need, needed, uses_symbol};
use crate::refusal::TableRefusal;
use crate::resolved::resolve;
use ad_base::{LOCAL_WORDS, Name, OutOfMemory, Sequence, TABLE_WORDS, WORD_BYTES};
use ad_elf::{Object, Rela};
use ad_parts::Layout;
use std::alloc::Global;

/// The symbols for which the tables have a word, in order of first use: word `e` is that of the symbol `e`.
#[derive(Debug, Drop)]
pub struct TableSet {
    /// The numbers of the symbols for which the local area has a word, behind its sections.
    pub local: Sequence<u64>,
    /// The numbers of the symbols for which the fixed table has a word, and each part a stub.
    pub fixed: Sequence<u64>,
}

/// The tables of an object that is laid out so, or why it has none. It takes time that is linear in the
/// relocations but for looking up sections and symbols.
pub fn tables(alloc: Global, object: &Object, layout: &Layout) -> Result<TableSet, TableRefusal>
    requires range { IsInRange object.now }
    requires laid { IsLayout object.now layout.now }
    ensures tables { IfOk result (λ t. AreTables object.now layout.now t) }
    ensures refused { IfErr result (λ r. (r ≡ MemoryWanted) ⊎ IsRefused object.now layout.now r) }
{
    let mut lists = match Lists::new(alloc, layout) {
        None => return Err(TableRefusal::LocalFull),
        Some(lists) => lists,
    };
    let relas = object.relas.as_slice();
    for k in 0..relas.len() {
        let need = need_of(alloc, object, layout, &relas[k])?;
        lists.put(need, relas[k].symbol)?;
    }
    Ok(TableSet {
        local: lists.local.into_symbols(),
        fixed: lists.fixed.into_symbols(),
    })
}

/// The symbols that were found.
#[derive(Drop)]
struct Lists {
    /// The words of the local area that its sections take.
    section_words: u64,
    local: Entries,
    fixed: Entries,
}

impl Lists {
    /// No symbol yet, unless the sections alone are too long for the local area.
    fn new(alloc: Global, layout: &Layout) -> Option<Lists>
        ensures words { IfSome result (λ s. s.section_words ≡ section_words layout.now) }
        ensures local { IfSome result (λ s. s.local ≡ []) }
        ensures fixed { IfSome result (λ s. s.fixed ≡ []) }
        ensures fits { IfSome result (λ s. over s ≡ None) }
        ensures none { IfNone result (nat_lt LOCAL_WORDS (section_words layout.now) ≡ true) }
    {
        let bytes = layout.sizes.local_bytes;
        if bytes > u128::from(LOCAL_WORDS * WORD_BYTES) {
            return None;
        }
        Some(Lists {
            section_words: (bytes as u64 + (WORD_BYTES - 1)) / WORD_BYTES,
            local: Entries::new(alloc),
            fixed: Entries::new(alloc),
        })
    }

    /// Puts a symbol where a word is needed for it.
    fn put(&mut self, need: Need, symbol: u64) -> Result<(), TableRefusal>
        requires { over self.old ≡ None }
        ensures lists { OnOk result (self.new ≡ with_need self.old need symbol) }
        ensures fits { OnOk result (over self.new ≡ None) }
        ensures refused { IfErr result (λ r. (r ≡ MemoryWanted) ⊎ (over (with_need self.old need symbol) ≡ Some r)) }
    {
        match need {
            Need::Nothing => (),
            Need::Local => self.local.add(symbol)?,
            Need::Fixed => self.fixed.add(symbol)?,
        }
        if self.local.len() > LOCAL_WORDS - self.section_words {
            Err(TableRefusal::LocalFull)
        } else if self.fixed.len() > TABLE_WORDS {
            Err(TableRefusal::FixedFull)
        } else {
            Ok(())
        }
    }
}

/// Whose word an entry needs, unless its symbol is unresolved.
fn need_of(
    alloc: Global,
    object: &Object,
    layout: &Layout,
    rela: &Rela,
) -> Result<Need, TableRefusal>
    requires { AreInOrder layout.now.spots }
    ensures need { IfOk result (λ n. n ≡ need_of object.now layout.now rela.now) }
    ensures fine { OnOk result (unresolved_row object.now layout.now rela.now ≡ None) }
    ensures refused { IfErr result (λ r. (r ≡ MemoryWanted) ⊎ (unresolved_row object.now layout.now rela.now ≡ Some r)) }
{
    if !uses_symbol(rela.typ) {
        return Ok(Need::Nothing);
    }
    match resolve(object, layout, rela.symbol) {
        None => Err(TableRefusal::Unresolved(name_of(alloc, object, rela.symbol)?)),
        Some(symbol) => Ok(needed(in_movable(layout, rela.target), rela.typ, symbol)),
    }
}

/// The name of a symbol.
fn name_of(alloc: Global, object: &Object, number: u64) -> Result<Name, OutOfMemory>
    ensures { IfOk result (λ name. name ≡ name_of_symbol object.now.symbols number) }
{
    match object.symbols.as_slice().get(number as usize) {
        Some(symbol) => Name::of(alloc, symbol.name.bytes()),
        None => Name::of(alloc, b""),
    }
}

/// Whether the section of this number is in the movable part.
fn in_movable(layout: &Layout, section: u64) -> bool
    requires { AreInOrder layout.now.spots }
    ensures { result ≡ in_movable layout.now.spots section }
{
    match layout.spot(section) {
        Some(spot) => spot.movable,
        None => false,
    }
}
