//! Worked words of each sentence of the grammar, on both sides.

use crate::{Command, read_words};
use std::alloc::{AllocError, Global};
use std::test::Fail;

/// The words as a process has them.
fn owned(alloc: Global, words: &[&str]) -> Result<Vec<String>, AllocError> {
    let mut list = Vec::new(alloc);
    for word in words {
        list.push(String::from_str(alloc, word)?)?;
    }
    Ok(list)
}

fn run(script: &str, seed: u64, fuel: u64, slots: u64, frames: u64) -> Command<'_> {
    Command::Run {
        script,
        seed,
        fuel,
        slots,
        frames,
    }
}

fn seq(script: &str, seed: u64, fuel: u64) -> Command<'_> {
    Command::Seq { script, seed, fuel }
}

fn predict(script: &str, seed: u64, fuel: u64) -> Command<'_> {
    Command::Predict { script, seed, fuel }
}

fn show(file: &str) -> Command<'_> {
    Command::Show { file }
}

fn generate(number: u64, seed: u64, fuel: u64) -> Command<'static> {
    Command::Gen { number, seed, fuel }
}

#[test]
fn words_of_the_grammar(rt: HostRuntime) -> Result<(), Fail> {
    let cases: [(&[&str], Command<'_>); 80] = [
        // Tasks and operands.
        (&["seq", "s"], seq("s", 0, 100_000)),
        (&["predict", "s"], predict("s", 0, 100_000)),
        (&["show", "f"], show("f")),
        (&["seq", "seq"], seq("seq", 0, 100_000)),
        (&["seq", ""], seq("", 0, 100_000)),
        (&["show", ""], show("")),
        (&["seq", "-"], seq("-", 0, 100_000)),
        (&["show", "-"], show("-")),
        (&["seq", "a=b"], seq("a=b", 0, 100_000)),
        // `--` ends the options.
        (&["seq", "s", "--"], seq("s", 0, 100_000)),
        (&["seq", "--", "s"], seq("s", 0, 100_000)),
        (&["seq", "--", "--"], seq("--", 0, 100_000)),
        (&["seq", "--", "-x"], seq("-x", 0, 100_000)),
        (&["seq", "--", "--help"], seq("--help", 0, 100_000)),
        (&["seq", "--", "--seed=1"], seq("--seed=1", 0, 100_000)),
        (&["show", "--", "--seed"], show("--seed")),
        (&["seq", "--seed", "5", "--", "-"], seq("-", 5, 100_000)),
        // Options before and behind the operand, in both forms and either order.
        (&["seq", "--seed", "5", "s"], seq("s", 5, 100_000)),
        (&["seq", "s", "--seed", "5"], seq("s", 5, 100_000)),
        (&["seq", "--seed=5", "s"], seq("s", 5, 100_000)),
        (&["seq", "s", "--seed=5"], seq("s", 5, 100_000)),
        (&["seq", "--fuel", "7", "s"], seq("s", 0, 7)),
        (&["seq", "s", "--fuel=7"], seq("s", 0, 7)),
        (&["seq", "--seed", "5", "--fuel=7", "s"], seq("s", 5, 7)),
        (&["seq", "--fuel", "7", "s", "--seed", "5"], seq("s", 5, 7)),
        (
            &["predict", "s", "--fuel=7", "--seed=5"],
            predict("s", 5, 7),
        ),
        // Numbers.
        (&["seq", "--seed", "0", "s"], seq("s", 0, 100_000)),
        (&["seq", "--seed", "007", "s"], seq("s", 7, 100_000)),
        (
            &["seq", "--seed", "18446744073709551615", "s"],
            seq("s", u64::MAX, 100_000),
        ),
        (
            &["seq", "--seed=00018446744073709551615", "s"],
            seq("s", u64::MAX, 100_000),
        ),
        (&["seq", "--fuel", "1", "s"], seq("s", 0, 1)),
        (
            &["seq", "--fuel", "100000000", "s"],
            seq("s", 0, 100_000_000),
        ),
        (&["seq", "--fuel=00000000001", "s"], seq("s", 0, 1)),
        (
            &["predict", "--fuel=100000000", "s"],
            predict("s", 0, 100_000_000),
        ),
        // A script of so many lines that is generated: the number is the operand.
        (&["gen", "8"], generate(8, 0, 100_000)),
        (&["gen", "1"], generate(1, 0, 100_000)),
        (&["gen", "19000"], generate(19_000, 0, 100_000)),
        (&["gen", "18999"], generate(18_999, 0, 100_000)),
        (&["gen", "08"], generate(8, 0, 100_000)),
        (
            &["gen", "0000000000000000000000019000"],
            generate(19_000, 0, 100_000),
        ),
        (&["gen", "--", "8"], generate(8, 0, 100_000)),
        (&["gen", "8", "--"], generate(8, 0, 100_000)),
        (&["gen", "--seed", "5", "--", "8"], generate(8, 5, 100_000)),
        (&["gen", "--seed", "5", "8"], generate(8, 5, 100_000)),
        (&["gen", "8", "--seed", "5"], generate(8, 5, 100_000)),
        (&["gen", "--seed=5", "8"], generate(8, 5, 100_000)),
        (
            &["gen", "8", "--seed=18446744073709551615"],
            generate(8, u64::MAX, 100_000),
        ),
        (&["gen", "--fuel", "1", "8"], generate(8, 0, 1)),
        (
            &["gen", "8", "--fuel=100000000"],
            generate(8, 0, 100_000_000),
        ),
        (&["gen", "--fuel=7", "8", "--seed", "9"], generate(8, 9, 7)),
        (
            &["gen", "--seed", "9", "--fuel", "7", "8"],
            generate(8, 9, 7),
        ),
        (&["seq", "gen"], seq("gen", 0, 100_000)),
        (&["show", "8"], show("8")),
        // The calls of a script's workers beside one another.
        (&["run", "s"], run("s", 0, 100_000, 4, 8)),
        (&["run", "run"], run("run", 0, 100_000, 4, 8)),
        (&["run", ""], run("", 0, 100_000, 4, 8)),
        (&["run", "-"], run("-", 0, 100_000, 4, 8)),
        (&["seq", "run"], seq("run", 0, 100_000)),
        (&["run", "s", "--"], run("s", 0, 100_000, 4, 8)),
        (&["run", "--", "s"], run("s", 0, 100_000, 4, 8)),
        (&["run", "--", "--"], run("--", 0, 100_000, 4, 8)),
        (
            &["run", "--", "--slots=17"],
            run("--slots=17", 0, 100_000, 4, 8),
        ),
        (
            &["run", "--slots", "2", "--", "-"],
            run("-", 0, 100_000, 2, 8),
        ),
        (&["run", "--seed", "5", "s"], run("s", 5, 100_000, 4, 8)),
        (
            &["run", "s", "--seed=18446744073709551615"],
            run("s", u64::MAX, 100_000, 4, 8),
        ),
        (&["run", "s", "--fuel", "1"], run("s", 0, 1, 4, 8)),
        (
            &["run", "--fuel=100000000", "s"],
            run("s", 0, 100_000_000, 4, 8),
        ),
        (&["run", "--slots", "1", "s"], run("s", 0, 100_000, 1, 8)),
        (&["run", "s", "--slots", "16"], run("s", 0, 100_000, 16, 8)),
        (&["run", "--slots=16", "s"], run("s", 0, 100_000, 16, 8)),
        (&["run", "s", "--slots=1"], run("s", 0, 100_000, 1, 8)),
        (
            &["run", "--slots", "0016", "s"],
            run("s", 0, 100_000, 16, 8),
        ),
        (&["run", "--frames", "2", "s"], run("s", 0, 100_000, 4, 2)),
        (&["run", "s", "--frames", "16"], run("s", 0, 100_000, 4, 16)),
        (&["run", "--frames=16", "s"], run("s", 0, 100_000, 4, 16)),
        (&["run", "s", "--frames=2"], run("s", 0, 100_000, 4, 2)),
        (&["run", "--frames=002", "s"], run("s", 0, 100_000, 4, 2)),
        (
            &["run", "--slots=8", "s", "--frames", "4"],
            run("s", 0, 100_000, 8, 4),
        ),
        (
            &[
                "run",
                "--seed",
                "5",
                "--fuel=7",
                "s",
                "--slots",
                "3",
                "--frames=12",
            ],
            run("s", 5, 7, 3, 12),
        ),
        (
            &[
                "run",
                "--frames=12",
                "--slots",
                "3",
                "s",
                "--fuel=7",
                "--seed",
                "5",
            ],
            run("s", 5, 7, 3, 12),
        ),
    ];
    for (words, command) in cases {
        let owned = owned(rt.alloc(), words)?;
        assert_eq!(rt; read_words(owned.as_slice()), Some(command), "at {words:?}");
    }
    Ok(())
}

#[test]
fn words_of_no_grammar(rt: HostRuntime) -> Result<(), Fail> {
    let cases: [&[&str]; 154] = [
        // The task is missing, unknown or not the first word.
        &[],
        &[""],
        &["s"],
        &["s", "seq"],
        &["walk", "s"],
        &["Seq", "s"],
        &["--", "seq", "s"],
        &["--seed", "5", "seq", "s"],
        &["--help"],
        &["--version"],
        // There is no operand, or more than one.
        &["seq"],
        &["predict"],
        &["show"],
        &["seq", "--"],
        &["seq", "--seed", "5"],
        &["seq", "--seed=5"],
        &["seq", "s", "t"],
        &["seq", "s", ""],
        &["seq", "-", "-"],
        &["seq", "s", "--", "t"],
        &["seq", "--", "s", "t"],
        &["seq", "--", "--", "--"],
        &["show", "f", "g"],
        // An option that isn't known, or belongs to other tasks.
        &["seq", "-x"],
        &["seq", "-x", "s"],
        &["seq", "s", "-5"],
        &["seq", "--help"],
        &["seq", "s", "--help"],
        &["seq", "---", "s"],
        &["seq", "--=5", "s"],
        &["seq", "--slots", "4", "s"],
        &["seq", "--slots=4", "s"],
        &["seq", "--seeds=5", "s"],
        &["seq", "-seed", "5", "s"],
        &["seq", "--Seed", "5", "s"],
        &["show", "--seed", "5", "f"],
        &["show", "f", "--fuel=7"],
        // An option is given twice.
        &["seq", "--seed", "5", "--seed", "5", "s"],
        &["seq", "--seed", "5", "s", "--seed=6"],
        &["seq", "--fuel=7", "--fuel=7", "s"],
        &["predict", "--fuel=7", "s", "--fuel", "8"],
        // The value is missing, or is the word behind the option.
        &["seq", "s", "--seed"],
        &["seq", "--seed", "s"],
        &["seq", "--seed", "--", "s"],
        &["seq", "--seed", "--fuel", "7", "s"],
        &["seq", "s", "--seed", "--"],
        &["seq", "s", "--seed", "--", "5"],
        // The value is no number.
        &["seq", "--seed=", "s"],
        &["seq", "--seed", "", "s"],
        &["seq", "--seed", "-1", "s"],
        &["seq", "--seed=-1", "s"],
        &["seq", "--seed=+1", "s"],
        &["seq", "--seed", "0x5", "s"],
        &["seq", "--seed", "5a", "s"],
        &["seq", "--seed", " 5", "s"],
        &["seq", "--seed=5=5", "s"],
        // The number isn't in range.
        &["seq", "--seed", "18446744073709551616", "s"],
        &["predict", "--seed=100000000000000000000", "s"],
        &["seq", "--fuel", "0", "s"],
        &["seq", "--fuel=000", "s"],
        &["seq", "--fuel", "100000001", "s"],
        &["predict", "--fuel=18446744073709551617", "s"],
        // The operand of `gen` is no number, or not one of those.
        &["gen"],
        &["gen", "--"],
        &["gen", "0"],
        &["gen", "000"],
        &["gen", "19001"],
        &["gen", "0019001"],
        &["gen", "18446744073709551617"],
        &["gen", ""],
        &["gen", "-"],
        &["gen", "-8"],
        &["gen", "+8"],
        &["gen", "0x8"],
        &["gen", "8a"],
        &["gen", " 8"],
        &["gen", "8 "],
        &["gen", "1_000"],
        &["gen", "s"],
        &["gen", "gen"],
        &["gen", "--", "-8"],
        &["gen", "--", "s"],
        &["gen", "--", "0"],
        &["gen", "--", "--"],
        &["gen", "8", "8"],
        &["gen", "8", "9"],
        &["gen", "8", "--", "8"],
        &["gen", "--", "8", "--seed=5"],
        &["gen", "--seed", "8"],
        &["gen", "--seed=5"],
        &["gen", "8", "--seed"],
        &["gen", "8", "--seed", "s"],
        &["gen", "8", "--fuel=0"],
        &["gen", "8", "--fuel", "100000001"],
        &["gen", "8", "--seed=5", "--seed=5"],
        &["gen", "8", "--slots", "4"],
        &["gen", "--slots=4", "8"],
        &["gen", "--frames", "8", "8"],
        &["gen", "-x", "8"],
        &["gen", "8", "--help"],
        &["Gen", "8"],
        &["gen8"],
        &["8", "gen"],
        // The words of `run`.
        &["run"],
        &["run", "--"],
        &["run", "--slots", "4"],
        &["run", "--frames=8"],
        &["run", "s", "t"],
        &["run", "s", "--", "t"],
        &["run", "--", "s", "--slots=4"],
        &["Run", "s"],
        &["run", "--help"],
        &["run", "-slots", "4", "s"],
        &["run", "--Slots", "4", "s"],
        &["run", "--slot=4", "s"],
        &["run", "--frame", "8", "s"],
        &["run", "--seed", "18446744073709551616", "s"],
        &["run", "--fuel", "0", "s"],
        &["run", "--fuel=100000001", "s"],
        &["run", "--slots", "0", "s"],
        &["run", "s", "--slots", "17"],
        &["run", "--slots=17", "s"],
        &["run", "s", "--slots=0"],
        &["run", "--slots", "18446744073709551617", "s"],
        &["run", "--frames", "0", "s"],
        &["run", "--frames", "1", "s"],
        &["run", "s", "--frames", "17"],
        &["run", "--frames=17", "s"],
        &["run", "s", "--frames=1"],
        &["run", "--frames", "18446744073709551618", "s"],
        &["run", "--slots=", "s"],
        &["run", "s", "--frames="],
        &["run", "--slots", "", "s"],
        &["run", "--slots", "s"],
        &["run", "s", "--slots"],
        &["run", "s", "--frames"],
        &["run", "--slots", "--frames", "8", "s"],
        &["run", "--frames", "--", "s"],
        &["run", "--slots=-4", "s"],
        &["run", "--slots", "+4", "s"],
        &["run", "--frames", "0x8", "s"],
        &["run", "--frames=8a", "s"],
        &["run", "--slots", "4", "--slots", "4", "s"],
        &["run", "--slots", "4", "s", "--slots=5"],
        &["run", "--frames=8", "--frames=8", "s"],
        &["run", "--frames=8", "s", "--frames", "9"],
        &["run", "--seed=5", "s", "--seed=5"],
        &["run", "--fuel", "7", "--fuel", "7", "s"],
        // `--slots` and `--frames` belong to `run` alone.
        &["seq", "--frames", "8", "s"],
        &["seq", "s", "--frames=8"],
        &["predict", "--slots", "4", "s"],
        &["predict", "s", "--frames=8"],
        &["show", "--slots=4", "f"],
        &["show", "f", "--frames", "8"],
    ];
    for words in cases {
        let owned = owned(rt.alloc(), words)?;
        assert_eq!(rt; read_words(owned.as_slice()), None, "at {words:?}");
    }
    Ok(())
}
