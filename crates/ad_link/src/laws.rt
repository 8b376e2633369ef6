//! The answers that a file can have.

ghost use Rattle.std.specs.Prelude.{◌≡◌, ◌⊎◌, ℕ, List};
ghost use Rattle.ad_link.specs.Plan.{IsPlan, IsRefused, Planned};
ghost use Rattle.ad_link.specs.declared.refusal.LinkRefusal.{LinkRefusal};

/// A file has one plan, or is refused in one way, and not both.
pub fn law_one_answer()
    ensures one_plan { (file : List ℕ) (p q : Planned) → IsPlan file p → IsPlan file q → p ≡ q }
    ensures one_refusal { (file : List ℕ) (r s : LinkRefusal) → IsRefused file r → IsRefused file s → r ≡ s }
    ensures apart { (file : List ℕ) (p : Planned) (r : LinkRefusal) → IsPlan file p → IsRefused file r → ⊥ }
    ensures some { (file : List ℕ) → ((p : Planned) × IsPlan file p) ⊎ ((r : LinkRefusal) × IsRefused file r) }
{}
