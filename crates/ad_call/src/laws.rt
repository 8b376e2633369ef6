//! What holds of the definitions of this crate, and worked examples. Each function makes no call: its contract is the law.

ghost use Rattle.std.specs.Prelude.{◌≡◌, ◌*◌, ℕ, List, [], ◌∷◌, length};
ghost use Rattle.ad_base.specs.declared.image.Image.{Image};
ghost use Rattle.ad_base.specs.declared.layout.TheConstants.{PAGE_BYTES, STACK_PAGES};
ghost use Rattle.ad_base.specs.declared.place.Place.{Place};
ghost use Rattle.ad_base.specs.Image.{movable_pages, IsWhole};
ghost use Rattle.ad_base.specs.Place.{IsPlace};
ghost use Rattle.ad_base.specs.Segments.{Access};
ghost use Rattle.ad_core.specs.Image.{segments_of};
ghost use Rattle.ad_call.specs.declared.asked.Asked.TheVariants.{Cell, Page};
ghost use Rattle.ad_call.specs.Asked.{asked_by, asked_by_all, local_base, HoldsTouched};
ghost use Rattle.ad_call.specs.Call.{HasData};
ghost use Rattle.ad_call.specs.Examples.{asks, fetch_at, image_of, load_at, place_in, store_at};

/// What accesses of a call ask has each page of the movable part that they touch, and each local word that they load,
/// whatever the stack and the data hold.
pub fn law_touched()
    ensures { (i : Image) (under stack : Place) (stack_bytes fixed writable : List ℕ) (accesses : List Access)
        → IsWhole i → HasData i writable fixed → length stack_bytes ≡ STACK_PAGES * PAGE_BYTES
        → IsPlace under → under.pages ≡ movable_pages i
        → HoldsTouched (segments_of i under stack stack_bytes fixed writable) under accesses (asked_by_all i under stack accesses) }
{}

/// A movable part of one page of text, at 0x81000: the stub page lies at 0x82000, the fixed table at 0x83000, the local area at
/// 0x84000, the data at 0x85000. The immovable part lies at 0xc1000, the stack at 0x200001000.
pub fn law_worked_asking()
    ensures base { local_base (image_of 1 0) (place_in 2 5) ≡ 0x84000 }
    ensures base_behind_constants { local_base (image_of 3 2) (place_in 2 9) ≡ 0x88000 }
    ensures fetch { asks (fetch_at 0x81004) ≡ Page 0x81004 ∷ [] }
    ensures first_word { asks (load_at 0x84000) ≡ Page 0x84000 ∷ Cell 0 ∷ [] }
    ensures second_word { asks (load_at 0x84008) ≡ Page 0x84008 ∷ Cell 1 ∷ [] }
    ensures last_word { asks (load_at 0x84ff8) ≡ Page 0x84ff8 ∷ Cell 511 ∷ [] }
    ensures table { asks (load_at 0x83ff8) ≡ Page 0x83ff8 ∷ [] }
    ensures loaded_data { asks (load_at 0x85000) ≡ Page 0x85000 ∷ [] }
    ensures stored_data { asks (store_at 0x85008) ≡ Page 0x85008 ∷ [] }
    ensures stored_word { asks (store_at 0x84008) ≡ Page 0x84008 ∷ [] }
    ensures behind_the_part { asks (load_at 0x86000) ≡ Page 0x86000 ∷ [] }
    ensures stack { asks (load_at 0x200001000) ≡ [] }
    ensures behind_the_stack { asks (load_at 0x200005000) ≡ Page 0x200005000 ∷ [] }
    ensures immovable { asks (load_at 0xc1000) ≡ [] }
    ensures behind_the_immovable { asks (load_at 0xc4000) ≡ Page 0xc4000 ∷ [] }
    ensures above_all_places { asks (load_at 0x400000000) ≡ [] }
    ensures under_the_stack { asked_by (image_of 1 0) (place_in 2 5) (place_in 2 4) (load_at 0x84008) ≡ [] }
    ensures in_order { asked_by_all (image_of 1 0) (place_in 2 5) (place_in 32768 4) (fetch_at 0x81000 ∷ load_at 0x84008 ∷ load_at 0x200001000 ∷ fetch_at 0x81004 ∷ [])
        ≡ Page 0x81000 ∷ Page 0x84008 ∷ Cell 1 ∷ Page 0x81004 ∷ [] }
{}
