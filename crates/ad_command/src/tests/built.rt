//! Scripts that are built, over the modules that are built.

use super::{Given, expect_fault, seq, serve};
use std::test::Fail;

/// A command whose every fetch would fail.
fn unread<'a>(words: &'a [&'a str]) -> Given<'a> {
    Given {
        words,
        fetches: &[1, 2, 3, 4, 5],
        ..seq(b"", b"")
    }
}

#[test]
fn lines_of_built_scripts(rt: HostRuntime) -> Result<(), Fail> {
    let cases: [(&[&str], &str); 11] = [
        (&["gen", "8"], "gen 8 calls 7 moves 1 mappings 13 sum 29\n"),
        (&["gen", "1"], "gen 1 calls 1 moves 0 mappings 12 sum 1\n"),
        (&["gen", "2"], "gen 2 calls 2 moves 0 mappings 12 sum 3\n"),
        (&["gen", "7"], "gen 7 calls 7 moves 0 mappings 12 sum 29\n"),
        (&["gen", "9"], "gen 9 calls 8 moves 1 mappings 13 sum 38\n"),
        (
            &["gen", "64"],
            "gen 64 calls 56 moves 8 mappings 20 sum 3872\n",
        ),
        (
            &["gen", "1000"],
            "gen 1000 calls 875 moves 125 mappings 137 sum 10683125\n",
        ),
        // Replies don't tell places.
        (
            &["gen", "--seed", "5", "--", "008"],
            "gen 8 calls 7 moves 1 mappings 13 sum 29\n",
        ),
        // The steps of a call are those that are allowed: that of `sum` has two.
        (
            &["gen", "8", "--fuel=1"],
            "gen 8 calls 7 moves 1 mappings 13 sum 0\n",
        ),
        (
            &["gen", "8", "--fuel=2"],
            "gen 8 calls 7 moves 1 mappings 13 sum 3\n",
        ),
        (
            &["gen", "19000"],
            "gen 19000 calls 16625 moves 2375 mappings 2387 sum 71543823125\n",
        ),
    ];
    for (words, line) in cases {
        let served = serve(&rt, &unread(words))?;
        expect_fault(&rt, &served, 0, "");
        assert_eq!(rt; std::str::from_utf8(served.written.as_slice())?, line);
        assert_eq!(rt; (served.asked, served.books), (0, 4));
    }
    Ok(())
}

#[test]
fn a_line_that_is_not_written(rt: HostRuntime) -> Result<(), Fail> {
    let line = b"gen 8 calls 7 moves 1 mappings 13 sum 29\n";
    let cases: [(u64, &[u64], usize); 3] = [(64, &[1], 0), (16, &[2], 16), (1, &[41], 40)];
    for (most, writes, taken) in cases {
        let given = Given {
            most,
            writes,
            ..unread(&["gen", "8"])
        };
        let served = serve(&rt, &given)?;
        expect_fault(&rt, &served, 5, "adelie: write");
        assert_eq!(rt; served.written.len(), taken);
        assert!(rt; line.starts_with(served.written.as_slice()));
        assert_eq!(rt; (served.asked, served.books), (0, 4));
        assert_eq!(rt; (served.calls, served.moves, served.rows), (2, 1, 13));
    }
    Ok(())
}
