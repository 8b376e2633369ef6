//! The calls of histories, to be found by their lines. A history is in the order in which its calls ran, which
//! with several workers isn't that of their lines.

ghost use Rattle.std.specs.Prelude.{◌≡◌, length, map, vec_len, IfOk};
ghost use Rattle.ad_base.specs.Book.{contents_of};
ghost use Rattle.ad_report.specs.Private.Index.{lines_of, AreIndices, IsIndex};

use ad_base::{Book, Entry, OutOfMemory};
use std::alloc::Global;

/// Where a call stands in its history.
#[derive(Clone, Copy)]
pub struct CallAt {
    /// The line that made it.
    pub line: u64,
    /// Its position in the history, counted from 0.
    pub position: usize,
}

/// The calls of each book in order of their lines, in order of the books.
pub fn indices(alloc: Global, books: &[Book]) -> Result<Vec<Vec<CallAt>>, OutOfMemory>
    ensures { IfOk result (λ indices. AreIndices (map contents_of books.now) (map (λ v. v.items) indices.items)) }
{
    let mut indices = Vec::with_capacity(alloc, books.len())?;
    for book in books {
        indices.push(index(alloc, book.history.as_slice())?)?;
    }
    Ok(indices)
}

/// The calls of a history in order of their lines. Those of one line stand as they do in the history.
fn index(alloc: Global, history: &[Entry]) -> Result<Vec<CallAt>, OutOfMemory>
    ensures { IfOk result (λ calls. IsIndex history.now calls.items) }
{
    let mut calls = lines_of(alloc, history)?;
    calls.sort_by_key(|call| call.line)?;
    Ok(calls)
}

/// The line of each call of a history, with the call's position.
fn lines_of(alloc: Global, history: &[Entry]) -> Result<Vec<CallAt>, OutOfMemory>
    ensures { IfOk result (λ lines. lines.items ≡ lines_of history.now) }
{
    let mut lines = Vec::with_capacity(alloc, history.len())?;
    for (position, entry) in history.iter().enumerate() {
        let line = entry.line;
        lines.push(CallAt { line, position })?;
    }
    Ok(lines)
}
