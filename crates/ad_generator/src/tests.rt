//! Tests of the files and of the script, against what is known of them.

use crate::{BUILT_MODULES, built, built_named, built_script};
use std::test::Fail;

/// The file of `sum`: the header of the file; the text, the symbols and the names; the section table.
const SUM_FILE: [&str; 15] = [
    "7f454c460201010000000000000000000100f300010000000000000000000000",
    "0000000000000000a00000000000000000000000400000000000400005000400",
    "3305b50067800000000000000000000000000000000000000000000000000000",
    "0100000012000100000000000000000008000000000000000073756d00002e74",
    "657874002e73796d746162002e737472746162002e7368737472746162000000",
    "0000000000000000000000000000000000000000000000000000000000000000",
    "0000000000000000000000000000000000000000000000000000000000000000",
    "0100000001000000060000000000000000000000000000004000000000000000",
    "0800000000000000000000000000000004000000000000000000000000000000",
    "0700000002000000000000000000000000000000000000004800000000000000",
    "3000000000000000030000000100000008000000000000001800000000000000",
    "0f00000003000000000000000000000000000000000000007800000000000000",
    "0500000000000000000000000000000001000000000000000000000000000000",
    "1700000003000000000000000000000000000000000000007d00000000000000",
    "2100000000000000000000000000000001000000000000000000000000000000",
];

/// The script of seven calls and a move.
const SCRIPT: &str = "workers 4\n\
    load sum sum.o\n\
    load cnt cnt.o\n\
    load dev dev.o\n\
    load tab tab.o\n\
    call 0 sum.sum 0 1\n\
    call 1 sum.sum 1 1\n\
    call 2 cnt.add 2\n\
    call 3 cnt.add 3\n\
    call 0 dev.echo 4\n\
    call 1 dev.echo 5\n\
    call 2 tab.pick 6\n\
    move sum\n";

/// The bytes as hexadecimal digits.
fn hex(rt: &impl AllocGlobal, bytes: &[u8]) -> Result<String, Fail> {
    let mut text = String::new(rt.alloc());
    for byte in bytes {
        write!(text, "{byte:02x}")?;
    }
    Ok(text)
}

/// The file of the module of a number.
fn file(rt: &impl AllocGlobal, number: u64) -> Result<Vec<u8>, Fail> {
    if number >= BUILT_MODULES {
        return Err("a module has the number".into());
    }
    Ok(built(rt.alloc(), number)?)
}

#[test]
fn the_file_of_sum(rt: HostRuntime) -> Result<(), Fail> {
    let mut expected = String::new(rt.alloc());
    for line in SUM_FILE {
        expected.push_str(line)?;
    }
    let file = file(&rt, 0)?;
    assert_eq!(rt; file.len(), 480);
    assert_eq!(rt; hex(&rt, file.as_slice())?.as_str(), expected.as_str());
    Ok(())
}

#[test]
fn files_by_name(rt: HostRuntime) -> Result<(), Fail> {
    for (number, name) in [(0, "sum.o"), (1, "cnt.o"), (2, "dev.o"), (3, "tab.o")] {
        let named = built_named(rt.alloc(), name)?;
        assert_eq!(rt; named.as_slice(), file(&rt, number)?.as_slice(), "{name}");
    }
    for name in ["", "sum", "cnt.", "sum.o ", "SUM.O", "s", "./sum.o"] {
        assert!(rt; built_named(rt.alloc(), name)?.is_empty(), "{name}");
    }
    Ok(())
}

#[test]
fn the_script_of_seven_calls_and_a_move(rt: HostRuntime) -> Result<(), Fail> {
    let text = built_script(rt.alloc(), 8)?;
    assert_eq!(rt; std::str::from_utf8(text.as_slice())?, SCRIPT);
    Ok(())
}
