//! What a line of the script made is looked up.

ghost use Rattle.std.specs.Prelude.{◌≡◌, ℕ, ◌<◌, ◌≤◌, ◌==◌, length, filter};
ghost use Rattle.std.specs.List.Sorted.{IsNonDecreasingBy, IsPartitionPoint};

use crate::index::CallAt;
use ad_base::Moved;

/// What a line of the script made.
pub trait OfLine {
    /// The number of the line.
    ghost line_number: { Self → ℕ };

    /// The number of the line.
    fn line(&self) -> u64
        ensures { result ≡ line_number self.now };
}

impl OfLine for CallAt {
    ghost line_number = { λ c. c.line };

    fn line(&self) -> u64 {
        self.line
    }
}

impl OfLine for Moved {
    ghost line_number = { λ m. m.line };

    fn line(&self) -> u64 {
        self.line
    }
}

/// Those that this line made, of some in order of their lines.
pub fn at_line<T: OfLine>(items: &[T], line: u64) -> &[T]
    requires { IsNonDecreasingBy T.line_number items.now }
    ensures { result.now ≡ filter (λ x. T.line_number x == line) items.now }
{
    let first = first_from(items, line);
    let end = first_behind(items, line);
    &items[first..end]
}

/// The index of the first that this line or a later one made, or their number where there is none.
fn first_from<T: OfLine>(items: &[T], line: u64) -> usize
    requires { IsNonDecreasingBy T.line_number items.now }
    ensures bound { result ≤ length items.now }
    ensures place { IsPartitionPoint (λ x. T.line_number x < line) (λ x. line ≤ T.line_number x) items.now result }
{
    items.partition_point(|item| item.line() < line)
}

/// The index of the first that a later line made, or their number where there is none.
fn first_behind<T: OfLine>(items: &[T], line: u64) -> usize
    requires { IsNonDecreasingBy T.line_number items.now }
    ensures bound { result ≤ length items.now }
    ensures place { IsPartitionPoint (λ x. T.line_number x ≤ line) (λ x. line < T.line_number x) items.now result }
{
    items.partition_point(|item| item.line() <= line)
}
