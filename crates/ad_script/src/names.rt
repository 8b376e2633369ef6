//! How names are spelled.

ghost use Rattle.std.specs.Prelude.{◌≡◌, true, false, MatchOption};
ghost use Rattle.std.specs.List.{list_all};
ghost use Rattle.ad_base.specs.ExportName.{is_name_byte};
ghost use Rattle.ad_script.specs.Forms.{export_part, is_export_name, is_file_name, is_graphic, is_module_name, is_target, module_part};

use crate::laws::law_file_names_are_text;
use crate::text::{Cut, cut_dot};
use ad_base::{Name, is_name_byte};

/// Tests for 1 to 32 letters, digits and `_`, of which the first is no digit.
#[tactic(auto, unfolding(crate::specs::Forms::is_module_name))]
pub fn is_module_name(name: &[u8]) -> bool
    ensures { result ≡ is_module_name name.now }
{
    match name {
        [] => false,
        [first, ..] => name.len() <= 32 && !first.is_ascii_digit() && has_name_bytes(name),
    }
}

/// Tests for letters, digits and `_` alone.
fn has_name_bytes(name: &[u8]) -> bool
    ensures { result ≡ list_all is_name_byte name.now }
{
    name.iter().all(|byte| is_name_byte(*byte))
}

/// Tests for 1 to 255 printing ASCII bytes other than the space, of which the first is no `#`.
#[tactic(auto, unfolding(crate::specs::Forms::is_file_name))]
pub fn is_file_name(name: &[u8]) -> bool
    ensures { result ≡ is_file_name name.now }
{
    match name {
        [] => false,
        [first, ..] => name.len() <= 255 && *first != b'#' && has_graphic_bytes(name),
    }
}

/// Tests for printing ASCII bytes other than the space alone.
fn has_graphic_bytes(name: &[u8]) -> bool
    ensures { result ≡ list_all is_graphic name.now }
{
    name.iter().all(|byte| byte.is_ascii_graphic())
}

/// Tests for 1 to 128 letters, digits, `_`, `.` and `$`.
#[tactic(auto, unfolding(crate::specs::Forms::is_export_name))]
fn is_export_name(name: &[u8]) -> bool
    ensures { result ≡ is_export_name name.now }
{
    ad_base::is_export_name(name)
}

/// The name of a file as text: it is ASCII.
pub fn file_text(name: &Name) -> &str
    requires { is_file_name name.now ≡ true }
    ensures { result.now ≡ name.now }
{
    law_file_names_are_text();
    match std::str::from_utf8(name.bytes()) {
        Ok(text) => text,
        Err(_) => unreachable!(),
    }
}

/// The export of a module, as a call names it.
#[derive(Clone, Copy)]
pub struct Target<'a> {
    pub module: &'a [u8],
    pub export: &'a [u8],
}

/// Reads the name of a module, a dot, and the name of an export. The name of the module ends at the first dot.
#[tactic(auto, unfolding(crate::specs::Forms::is_target))]
pub fn target_of(word: &[u8]) -> Option<Target<'_>>
    ensures { MatchOption result (is_target word.now ≡ false)
        (λ t. (is_target word.now ≡ true) × (t.module.now ≡ module_part word.now) × (t.export.now ≡ export_part word.now)) }
{
    let Cut { before, after } = cut_dot(word);
    if is_module_name(before) && is_export_name(after) {
        Some(Target {
            module: before,
            export: after,
        })
    } else {
        None
    }
}
