//! What the threads of a run share.

use ad_base::{Image, Sequence};
use ad_maps::Maps;
use ad_stacks::Stacks;
use ad_turns::Turns;

/// The three tables of a run, and the images of its modules, in order of their numbers. Threads share it by a `&`.
#[derive(Drop)]
pub struct Shared {
    pub maps: Maps,
    pub stacks: Stacks,
    pub turns: Turns,
    pub images: Sequence<Image>,
    /// The steps that a call may make at most.
    pub fuel: u64,
}
