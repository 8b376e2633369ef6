//! The stubs of a part.

ghost use Rattle.std.specs.Prelude.{◌≡◌, ◌+◌, ◌-◌, ◌*◌, ◌^◌, ◌<◌, ◌≤◌, ◌++◌, length, IfOk, OnOk};
ghost use Rattle.std.specs.List.{flat_map};
ghost use Rattle.byteorder.specs.Endian.{little_bytes};
ghost use Rattle.ad_base.specs.declared.layout.TheConstants.{TABLE_WORDS};
ghost use Rattle.ad_reloc.specs.declared.words.TheConstants.{STUB_BYTES};
ghost use Rattle.ad_reloc.specs.Image.{stub_words, stubs};
ghost use Rattle.ad_reloc.specs.Private.Small.{AreSmall};

use crate::addresses::{stubs_from, table_from};
use crate::words::STUB_BYTES;
use ad_base::{OutOfMemory, WORD_BYTES};
use ad_parts::Layout;
use std::alloc::Global;

/// The first so many stubs of a part.
pub(crate) fn stubs(
    alloc: Global,
    layout: &Layout,
    movable: bool,
    count: u64,
) -> Result<Vec<u8>, OutOfMemory>
    requires count { count ≤ TABLE_WORDS }
    requires small { AreSmall layout.now.sizes }
    ensures stubs { IfOk result (λ out. out.items ≡ stubs layout.now movable count) }
    ensures long { IfOk result (λ out. length out.items ≡ STUB_BYTES * count) }
{
    let (table, first) = (
        table_from(layout.sizes, movable),
        stubs_from(layout.sizes, movable),
    );
    let mut out = Vec::new(alloc);
    for e in 0..count {
        put_stub(&mut out, table + WORD_BYTES * e - (first + STUB_BYTES * e))?;
    }
    Ok(out)
}

/// Appends the stub that loads a word which is so many bytes ahead.
fn put_stub(out: &mut Vec<u8>, ahead: u64) -> Result<(), OutOfMemory>
    requires { ahead < 2 ^ 31 }
    ensures stub { OnOk result (out.new.items ≡ out.old.items ++ flat_map (little_bytes 4) (stub_words ahead)) }
    ensures long { OnOk result (length out.new.items ≡ length out.old.items + STUB_BYTES) }
{
    put_word(out, 0xe17 + ((ahead + 0x800) / 0x1000 * 0x1000) as u32)?;
    put_word(out, 0xe_3e03 + (ahead % 0x1000) as u32 * 0x10_0000)?;
    put_word(out, 0xe_0067)?;
    put_word(out, 0x13)
}

/// Appends a word of an instruction.
fn put_word(out: &mut Vec<u8>, word: u32) -> Result<(), OutOfMemory>
    ensures word { OnOk result (out.new.items ≡ out.old.items ++ little_bytes 4 word) }
    ensures long { OnOk result (length out.new.items ≡ length out.old.items + 4) }
{
    out.extend_from_slice(&word.to_le_bytes())?;
    Ok(())
}
