//! The spelling of an export's name.

ghost use Rattle.std.specs.Prelude.{◌≡◌, ◌↔◌, IsTrue};
ghost use Rattle.ad_base.specs.ExportName.{is_name_byte, is_export_byte, IsExportName};

/// Tests for the spelling of an export: 1 to 128 letters, digits, `_`, `.` and `$`.
pub fn is_export_name(name: &[u8]) -> bool
    ensures { IsTrue result ↔ IsExportName name.now }
{
    !name.is_empty() && name.len() <= 128 && name.iter().all(|byte| is_export_byte(*byte))
}

/// Tests for a byte of the name of a module: a letter, a digit or `_`.
pub fn is_name_byte(byte: u8) -> bool
    ensures { result ≡ is_name_byte byte }
{
    byte.is_ascii_alphanumeric() || byte == b'_'
}

fn is_export_byte(byte: u8) -> bool
    ensures { result ≡ is_export_byte byte }
{
    is_name_byte(byte) || byte == b'.' || byte == b'$'
}
