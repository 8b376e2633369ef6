//! What a worker does in its thread.

ghost use Rattle.std.specs.Prelude.{◌≡◌};
ghost use Rattle.ad_run.specs.Calls.{AreThere, HaveDraws, PerformsAll};
ghost use Rattle.ad_wrapper.specs.Fits.{AreHandsOf, Fits};

use ad_base::Gate;
use ad_wrapper::{Hands, Ready, Shared, perform};
use std::sync::Wait;

/// Makes these calls of a worker, in order.
pub fn make_calls<R: Wait, G: Gate>(
    rt: &R,
    shared: &Shared,
    hands: Hands,
    calls: &[Ready],
    gate: &G,
) -> Hands
    requires fits { Fits shared.now }
    requires hands { AreHandsOf shared.now hands }
    requires there { AreThere shared.now.images calls.now }
    requires draws { HaveDraws hands.turn_seat.left calls.now }
    ensures made { PerformsAll shared.now hands calls.now result }
    ensures hands { AreHandsOf shared.now result }
{
    let mut hands = hands;
    for call in calls {
        hands = perform(rt, shared, hands, call, gate);
    }
    hands
}
