//! Worked examples of the definitions of this crate. Each function makes no call: its contract is the example.

ghost use Rattle.std.specs.Prelude.{◌≡◌, [], ◌∷◌};
ghost use Rattle.ad_base.specs.declared.place.Place.{Place};
ghost use Rattle.ad_call.specs.declared.asked.Asked.TheVariants as asked;
ghost use Rattle.ad_maps.specs.declared.view.Act.TheVariants as act;
ghost use Rattle.ad_wrapper.specs.Asking.{asking};
ghost use Rattle.ad_wrapper.specs.Performed.{acts_of_call, drawn_once};

/// What a worker's acts tell that was asked of the pages: that since the last act of another kind. What a call of module 1 does
/// in the mapping table, and what it leaves of the draws.
#[tactic(auto, unfolding(crate::specs::Asking::asking))]
pub fn law_worked_acts()
    ensures nothing { asking [] ≡ record { begun = []; asked = [] } }
    ensures asked_inside { (p : Place) → asking (act.Enter ∷ act.Read 1 p ∷ act.Page 0x81004 ∷ act.Cell 1 ∷ [])
        ≡ record { begun = act.Enter ∷ act.Read 1 p ∷ []; asked = asked.Page 0x81004 ∷ asked.Cell 1 ∷ [] } }
    ensures asked_before { (p : Place) → asking (act.Enter ∷ act.Read 1 p ∷ act.Page 0x81004 ∷ act.Leave ∷ act.Unmap 3 ∷ [])
        ≡ record { begun = act.Enter ∷ act.Read 1 p ∷ act.Page 0x81004 ∷ act.Leave ∷ act.Unmap 3 ∷ []; asked = [] } }
    ensures asked_again { (p q : Place) → asking (act.Enter ∷ act.Read 1 p ∷ act.Page 0x81004 ∷ act.Leave ∷ act.Enter ∷ act.Read 0 q ∷ act.Page 0xc1000 ∷ [])
        ≡ record { begun = act.Enter ∷ act.Read 1 p ∷ act.Page 0x81004 ∷ act.Leave ∷ act.Enter ∷ act.Read 0 q ∷ []; asked = asked.Page 0xc1000 ∷ [] } }
    ensures acts { (p : Place) → acts_of_call 1 p (asked.Page 0x81004 ∷ asked.Cell 1 ∷ []) (3 ∷ 5 ∷ [])
        ≡ act.Enter ∷ act.Read 1 p ∷ act.Page 0x81004 ∷ act.Cell 1 ∷ act.Leave ∷ act.Unmap 3 ∷ act.Unmap 5 ∷ [] }
    ensures left { drawn_once 1 (4 ∷ 7 ∷ 2 ∷ []) ≡ 4 ∷ 6 ∷ 2 ∷ [] }
    ensures last { drawn_once 0 (1 ∷ []) ≡ 0 ∷ [] }
{}
