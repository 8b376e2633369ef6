//! The numbers of the calls that are to fail.

ghost use Rattle.std.specs.Prelude.{◌≡◌, ◌↔◌, Contains, IsTrue};

/// Whether a list has this number.
pub(crate) fn has_number(list: &[u64], number: u64) -> bool
    ensures { IsTrue result ↔ Contains list.now number }
{
    list.contains(&number)
}
