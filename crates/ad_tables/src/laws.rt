//! Laws of the tables.

ghost use Rattle.std.specs.Prelude.{◌≡◌, ◌⊎◌};
ghost use Rattle.ad_elf.specs.declared.object.Object.{Object};
ghost use Rattle.ad_parts.specs.declared.layout.Layout.{Layout};
ghost use Rattle.ad_tables.specs.declared.refusal.TableRefusal.{TableRefusal};
ghost use Rattle.ad_tables.specs.declared.table_set.TableSet.{TableSet};
ghost use Rattle.ad_tables.specs.Tables.{AreTables, IsRefused};

/// An object that is laid out has one set of tables, or is refused in one way, and not both.
pub fn law_one_answer()
    ensures one_set { (o : Object) (l : Layout) (t u : TableSet) → AreTables o l t → AreTables o l u → t ≡ u }
    ensures one_refusal { (o : Object) (l : Layout) (r s : TableRefusal) → IsRefused o l r → IsRefused o l s → r ≡ s }
    ensures apart { (o : Object) (l : Layout) (t : TableSet) (r : TableRefusal) → AreTables o l t → IsRefused o l r → ⊥ }
    ensures some { (o : Object) (l : Layout) → ((t : TableSet) × AreTables o l t) ⊎ ((r : TableRefusal) × IsRefused o l r) }
{}
