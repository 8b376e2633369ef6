//! Laws of halves and of images.

ghost use Rattle.std.specs.Prelude.{◌≡◌, ◌⊎◌, ℤ, []};
ghost use Rattle.ad_base.specs.declared.image.Image.{Image};
ghost use Rattle.ad_base.specs.declared.place.Place.{Place};
ghost use Rattle.ad_elf.specs.declared.object.Object.{Object};
ghost use Rattle.ad_parts.specs.declared.layout.Layout.{Layout};
ghost use Rattle.ad_reloc.specs.Halves.{AreHalves, HasHalves};
ghost use Rattle.ad_reloc.specs.Image.{IsImage, image_of, laid_parts};
ghost use Rattle.ad_reloc.specs.Refusals.{IsRefused};
ghost use Rattle.ad_reloc.specs.declared.refusal.RelocRefusal.{RelocRefusal};
ghost use Rattle.ad_tables.specs.declared.table_set.TableSet.{TableSet};

/// A number that has halves has one pair of them.
pub fn law_halves()
    ensures high { (v a b c d : ℤ) → AreHalves v a b → AreHalves v c d → a ≡ c }
    ensures low { (v a b c d : ℤ) → AreHalves v a b → AreHalves v c d → b ≡ d }
    ensures some { (v : ℤ) → HasHalves v → (a b : ℤ) × AreHalves v a b }
{}

/// An object without relocations has an image wherever its immovable part lies: its sections where they go.
pub fn law_without_relocations()
    ensures { (o : Object) (l : Layout) (t : TableSet) (fixed : Place) → o.relas ≡ [] → IsImage o l t fixed (image_of o l t fixed (laid_parts o l)) }
{}

/// An object that has a layout and tables has one image at a place, or is refused there in one way, and not both.
pub fn law_one_answer()
    ensures some { (o : Object) (l : Layout) (t : TableSet) (fixed : Place)
        → ((i : Image) × IsImage o l t fixed i) ⊎ ((r : RelocRefusal) × IsRefused o l t fixed r) }
    ensures one_image { (o : Object) (l : Layout) (t : TableSet) (fixed : Place) (i j : Image) → IsImage o l t fixed i → IsImage o l t fixed j → i ≡ j }
    ensures one_refusal { (o : Object) (l : Layout) (t : TableSet) (fixed : Place) (r s : RelocRefusal) → IsRefused o l t fixed r → IsRefused o l t fixed s → r ≡ s }
    ensures apart { (o : Object) (l : Layout) (t : TableSet) (fixed : Place) (i : Image) (r : RelocRefusal) → IsImage o l t fixed i → IsRefused o l t fixed r → ⊥ }
{}
