//! A text is cut into lines, and a line into words.

ghost use Rattle.std.specs.Prelude.{◌≡◌, ◌<◌, ℕ, Bool, length, IfOk, IfSome, position};
ghost use Rattle.std.specs.List.{after_first, before_first, list_all};
ghost use Rattle.ad_script.specs.Forms.{is_dot};
ghost use Rattle.ad_script.specs.Lines.{is_blank, is_comment, is_line_end, is_text_byte, without_return, words_of};
ghost use Rattle.ad_script.specs.Private.Seen.{texts};

use ad_base::OutOfMemory;
use std::alloc::Global;

/// What stands before a place of a text and behind it.
#[derive(Clone, Copy)]
pub struct Cut<'a> {
    pub before: &'a [u8],
    pub after: &'a [u8],
}

/// Cuts a text at its first LF: that is in neither part. All stands before, where there is none.
pub fn cut_line(text: &[u8]) -> Cut<'_>
    ensures before { result.before.now ≡ before_first is_line_end text.now }
    ensures after { result.after.now ≡ after_first is_line_end text.now }
{
    cut_at(text, line_end(text))
}

/// Cuts a text at its first space or tab: that is in neither part. All stands before, where there is none.
fn cut_word(text: &[u8]) -> Cut<'_>
    ensures before { result.before.now ≡ before_first is_blank text.now }
    ensures after { result.after.now ≡ after_first is_blank text.now }
{
    cut_at(text, blank(text))
}

/// Cuts a text at its first dot: that is in neither part. All stands before, where there is none.
pub fn cut_dot(text: &[u8]) -> Cut<'_>
    ensures before { result.before.now ≡ before_first is_dot text.now }
    ensures after { result.after.now ≡ after_first is_dot text.now }
{
    cut_at(text, dot(text))
}

/// The place of the first LF.
fn line_end(text: &[u8]) -> Option<usize>
    ensures { result ≡ position is_line_end text.now }
{
    text.iter().position(|byte| *byte == b'\n')
}

/// The place of the first space or tab.
fn blank(text: &[u8]) -> Option<usize>
    ensures { result ≡ position is_blank text.now }
{
    text.iter().position(|byte| *byte == b' ' || *byte == b'\t')
}

/// The place of the first dot.
fn dot(text: &[u8]) -> Option<usize>
    ensures { result ≡ position is_dot text.now }
{
    text.iter().position(|byte| *byte == b'.')
}

/// Cuts a text at this byte, or at its end.
fn cut_at(text: &[u8], at: Option<usize>) -> Cut<'_>
    requires { IfSome at (λ i. i < length text.now) }
    ensures before { (test : ℕ → Bool) → at ≡ position test text.now → result.before.now ≡ before_first test text.now }
    ensures after { (test : ℕ → Bool) → at ≡ position test text.now → result.after.now ≡ after_first test text.now }
{
    match at {
        Some(at) => Cut {
            before: &text[..at],
            after: &text[at + 1..],
        },
        None => Cut {
            before: text,
            after: &[],
        },
    }
}

/// A line without the CR that may stand at its end.
#[tactic(auto, unfolding(crate::specs::Lines::without_return))]
pub fn without_return(line: &[u8]) -> &[u8]
    ensures { result.now ≡ without_return line.now }
{
    match line.split_last() {
        Some((last, front)) if *last == b'\r' => front,
        _ => line,
    }
}

/// Tests for bytes alone that may stand in a line.
pub fn is_text(text: &[u8]) -> bool
    ensures { result ≡ list_all is_text_byte text.now }
{
    text.iter().all(|byte| is_text_byte(*byte))
}

/// Tests for a byte that may stand in a line: from the space to the tilde, or a tab.
fn is_text_byte(byte: u8) -> bool
    ensures { result ≡ is_text_byte byte }
{
    matches!(byte, b' '..=b'~' | b'\t')
}

/// The words of a line.
pub fn words_of(alloc: Global, text: &[u8]) -> Result<Vec<&[u8]>, OutOfMemory>
    ensures { IfOk result (λ words. texts words.items ≡ words_of text.now) }
{
    let mut words = Vec::new(alloc);
    let mut rest = text;
    while !rest.is_empty() {
        let Cut { before, after } = cut_word(rest);
        if is_comment(before) {
            return Ok(words);
        }
        if !before.is_empty() {
            words.push(before)?;
        }
        rest = after;
    }
    Ok(words)
}

/// Tests for a word that begins a comment.
fn is_comment(word: &[u8]) -> bool
    ensures { result ≡ is_comment word.now }
{
    matches!(word, [b'#', ..])
}
