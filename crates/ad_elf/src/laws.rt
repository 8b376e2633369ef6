//! Laws of object files.

ghost use Rattle.std.specs.Prelude.{◌≡◌, ◌⊎◌, ◌<◌, ◌^◌, ℕ, List, [], length, take};
ghost use Rattle.ad_elf.specs.declared.object.Object.{Object};
ghost use Rattle.ad_elf.specs.declared.refusal.ElfRefusal.{ElfRefusal};
ghost use Rattle.ad_elf.specs.declared.refusal.ElfRefusal.TheVariants.{SectionTable, Short};
ghost use Rattle.ad_elf.specs.Range.{IsInRange};
ghost use Rattle.ad_elf.specs.Refusals.{IsObject, IsRefused};
ghost use Rattle.ad_elf.specs.Worked.{sum_file, sum_object};

/// A file is the file of one object, or is refused in one way, and not both.
pub fn law_one_answer()
    ensures one_object { (file : List ℕ) (o p : Object) → IsObject file o → IsObject file p → o ≡ p }
    ensures one_refusal { (file : List ℕ) (r s : ElfRefusal) → IsRefused file r → IsRefused file s → r ≡ s }
    ensures apart { (file : List ℕ) (o : Object) (r : ElfRefusal) → IsObject file o → IsRefused file r → ⊥ }
    ensures some { (file : List ℕ) → ((o : Object) × IsObject file o) ⊎ ((r : ElfRefusal) × IsRefused file r) }
{}

/// An object of a file that fits in memory is in range.
pub fn law_in_range()
    ensures { (file : List ℕ) (o : Object) → length file < 2 ^ 64 → IsObject file o → IsInRange o }
{}

/// A worked file, of a function that adds its two arguments, is the file of its object. Without its last
/// byte it has no table of sections, and without any it is too short.
pub fn law_worked_file()
    ensures object { IsObject sum_file sum_object }
    ensures cut { IsRefused (take 479 sum_file) SectionTable }
    ensures empty { IsRefused [] Short }
{}
