//! Laws of the layout.

ghost use Rattle.std.specs.Prelude.{◌≡◌, ◌*◌, ◌<◌, ◌≤◌, ℕ};
ghost use Rattle.std.specs.List.{AllZip};
ghost use Rattle.ad_elf.specs.declared.object.Object.{Object};
ghost use Rattle.ad_elf.specs.Range.{IsInRange};
ghost use Rattle.ad_parts.specs.declared.layout.Layout.{Layout};
ghost use Rattle.ad_parts.specs.Ends.{next};
ghost use Rattle.ad_parts.specs.Parts.{IsLayout};
ghost use Rattle.ad_parts.specs.Symbols.{AreInAreas, AreInOrder, LiesInArea};

/// The next multiple of an alignment is the least one that isn't below a number.
pub fn law_next()
    ensures multiple { (align n : ℕ) → (k : ℕ) × (next align n ≡ k * align) }
    ensures from { (align n : ℕ) → 0 < align → n ≤ next align n }
    ensures least { (align n k : ℕ) → 0 < align → n ≤ k * align → next align n ≤ k * align }
{}

/// In the layout of an object that is in range the spots are in order, each section lies in its area, and
/// so does each symbol.
pub fn law_areas()
    ensures order { (o : Object) (l : Layout) → IsInRange o → IsLayout o l → AreInOrder l.spots }
    ensures sections { (o : Object) (l : Layout) → IsInRange o → IsLayout o l → AllZip (LiesInArea l.sizes) o.sections l.spots }
    ensures symbols { (o : Object) (l : Layout) → IsInRange o → IsLayout o l → AreInAreas l.sizes l.spots o.symbols }
{}
