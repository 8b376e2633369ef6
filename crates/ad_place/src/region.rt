//! The regions of each kind of mapping, and the search for one that isn't used.

ghost use Rattle.std.specs.Prelude.{◌≡◌, ◌<◌, ◌≤◌, length, slice_index_or, false};
ghost use Rattle.ad_place.specs.Choice.{first_region, first_unused, region_count};

use ad_base::{Kind, MODULE_REGION, MODULE_REGIONS, REGIONS, STACK_REGION, STACK_REGIONS};

/// The first region for the kind.
fn first_region(kind: Kind) -> u64
    ensures { result ≡ first_region kind }
{
    match kind {
        Kind::Code | Kind::Fixed => MODULE_REGION,
        Kind::Stack => STACK_REGION,
    }
}

/// How many regions there are for the kind, from the first one on.
fn region_count(kind: Kind) -> u64
    ensures { result ≡ region_count kind }
{
    match kind {
        Kind::Code | Kind::Fixed => MODULE_REGIONS,
        Kind::Stack => STACK_REGIONS,
    }
}

/// The first of the kind's regions that isn't used, from the one that the word says on, cyclically,
/// or `None` where all are used. `used` says of each region whether it is.
pub(crate) fn first_unused(used: &[bool], kind: Kind, word: u32) -> Option<u16>
    requires { length used.now ≡ REGIONS }
    ensures { result ≡ first_unused (λ region. slice_index_or used.now region false) kind word }
{
    let first = first_region(kind);
    let count = region_count(kind);
    for i in 0..count {
        let region = first + (u64::from(word) + i) % count;
        if !used[region as usize] {
            return Some(region as u16);
        }
    }
    None
}
