//! Printed text, and names of exports.

use crate::{End, Name, OutOfMemory, is_export_name, is_name_byte};
use std::test::Fail;

#[test]
fn ends_are_printed_as_in_a_report(rt: HostRuntime) -> Result<(), Fail> {
    let rows = [
        (End::Returned(42), "returned 42"),
        (End::Returned(u64::MAX), "returned 18446744073709551615"),
        (End::Illegal, "trap illegal"),
        (End::Misaligned, "trap misaligned"),
        (End::Fault, "trap fault"),
        (End::Denied, "trap denied"),
        (End::Ecall, "trap ecall"),
        (End::Ebreak, "trap ebreak"),
        (End::Fuel, "trap fuel"),
        (End::Abort(7), "abort 7"),
        (End::NotesFull, "trap notes"),
    ];
    for (end, want) in rows {
        let text = format!(in rt.alloc(); "{end}")?;
        assert_eq!(rt; text.as_str(), want);
    }
    Ok(())
}

#[test]
fn names_are_printed_as_text(rt: HostRuntime) -> Result<(), Fail> {
    let name = Name::of(rt.alloc(), b"d\xffe")?;
    let text = format!(in rt.alloc(); "{name}")?;
    assert_eq!(rt; text.as_str(), "d\u{fffd}e");
    let text = format!(in rt.alloc(); "{}", OutOfMemory)?;
    assert_eq!(rt; text.as_str(), "out of memory");
    Ok(())
}

#[test]
fn names_of_exports(rt: HostRuntime) {
    assert!(rt; is_export_name(b"_Z3sum.part$0"));
    for name in [b"".as_slice(), b"a b", b"a-b", b"\xc3\xa9"] {
        assert!(rt; !is_export_name(name), "{name:?}");
    }
    assert!(rt; is_name_byte(b'_') && !is_name_byte(b'.'));
}
