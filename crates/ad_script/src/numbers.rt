//! The numbers that words say.

ghost use Rattle.std.specs.Prelude.{◌≡◌, ◌<◌, ◌≤◌, ◌^◌, ◌⊎◌, IfNone, IfSome, MatchOption, map, length, true, false};
ghost use Rattle.std.specs.Str.Parse.{IsNumeral, digits_value};
ghost use Rattle.std.specs.List.{list_any};
ghost use Rattle.ad_script.specs.Forms.{number_of};
ghost use Rattle.ad_script.specs.Private.Seen.{texts};
ghost use Rattle.ad_script.specs.Script.{is_bad_number, number_or_0};
ghost use Rattle.ad_script.specs.declared.script.TheConstants.{ARGUMENTS};

use ad_base::Args;

/// The number below 2^64 that a word says: by decimal digits, or by `0x` and hexadecimal ones.
pub fn number_of(word: &[u8]) -> Option<u64>
    ensures { result ≡ number_of word.now }
{
    match word.strip_prefix(b"0x".as_slice()) {
        Some(digits) => number_in(16, digits),
        None => number_in(10, word),
    }
}

/// Reads digits alone, whose number is below 2^64.
fn number_in(radix: u32, digits: &[u8]) -> Option<u64>
    requires { (radix ≡ 10) ⊎ (radix ≡ 16) }
    ensures form { IfSome result (λ n. IsNumeral radix digits.now × (digits_value radix digits.now ≡ n) × (n < 2 ^ 64)) }
    ensures none { IfNone result (IsNumeral radix digits.now → digits_value radix digits.now < 2 ^ 64 → ⊥) }
{
    // The library takes a plus.
    if let [b'+', ..] = digits {
        return None;
    }
    let text = std::str::from_utf8(digits).ok()?;
    u64::from_str_radix(text, radix).ok()
}

/// The numbers that so many words say, or `None` where one says none.
pub fn arguments_of(words: &[&[u8]]) -> Option<Args>
    requires { length words.now ≤ ARGUMENTS }
    ensures { MatchOption result (list_any is_bad_number (texts words.now) ≡ true)
        (λ args. (list_any is_bad_number (texts words.now) ≡ false) × (args ≡ map number_or_0 (texts words.now))) }
{
    let mut args = Args::new();
    for word in words {
        args.push(number_of(word)?);
    }
    Some(args)
}
