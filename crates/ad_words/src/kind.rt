//! What a word is by itself.

ghost use Rattle.std.specs.Prelude.{◌≡◌};
ghost use Rattle.ad_words.specs.Private.Seen.{kind_seen};
ghost use Rattle.ad_words.specs.Words.{kind_of, option_kind};

/// What a word is where no `--` stands before it and it is no option's value.
#[derive(Clone, Copy)]
pub enum Kind<'a> {
    /// `--`: the words behind it are operands.
    End,
    /// An operand.
    Plain,
    /// An option and its value, `--name=value`.
    Joined { name: &'a str, value: &'a str },
    /// An option, `--name`, whose value is the next word.
    Apart { name: &'a str },
    /// Not in the grammar.
    Wrong,
}

/// Tells what a word is.
pub fn word_kind(word: &str) -> Kind<'_>
    ensures { kind_seen result ≡ kind_of word.now }
{
    if word == "--" {
        return Kind::End;
    }
    if word == "-" || !word.starts_with("-") {
        return Kind::Plain;
    }
    match word.strip_prefix("--") {
        Some(text) => option_kind(text),
        None => Kind::Wrong,
    }
}

/// Cuts the text behind `--` at its first `=`.
fn option_kind(text: &str) -> Kind<'_>
    ensures { kind_seen result ≡ option_kind text.now }
{
    match text.split_once('=') {
        Some((name, value)) => Kind::Joined { name, value },
        None => Kind::Apart { name: text },
    }
}
