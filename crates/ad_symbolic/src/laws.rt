//! Worked examples of the symbolic machine, and what replay says of single calls. Each function makes no call: its
//! contract is the example or the law.

ghost use Rattle.std.specs.Prelude.{◌≡◌, ◌-◌, ◌^◌, ℕ, [], ◌∷◌, List, Option, Ok, Err, true, false};
ghost use Rattle.ad_base.specs.declared.image.Image.{Image};
ghost use Rattle.ad_base.specs.declared.place.Place.{Place};
ghost use Rattle.ad_symbolic.specs.Value.{conjunction_of, difference_of, holds_of, other_of, sum_of};
ghost use Rattle.ad_symbolic.specs.declared.byte.Byte.TheVariants.{Number, OfAddress};
ghost use Rattle.ad_symbolic.specs.declared.value.Reason.TheVariants.{Address, Arithmetic, Comparison, MixedBytes};
ghost use Rattle.ad_symbolic.specs.declared.value.Value.TheVariants.{At, Num};
ghost use Rattle.ad_symbolic.specs.declared.value.Part.TheVariants.{Movable, Stack};
ghost use Rattle.ad_symbolic.specs.declared.value.Part.{Part};
ghost use Rattle.ad_symbolic.specs.AddressSpace.{fetched_value, loaded_value, stored_value};
ghost use Rattle.ad_symbolic.specs.Replay.{Asked, Clear, Keeps, Kept, Lost, NotClear, answers_from, clear_calls, keeps_none, replay};
ghost use Rattle.ad_symbolic.specs.Reply.{answer_to, kept_after};
ghost use Rattle.ad_symbolic.specs.Examples.{asked, ended_with, fixed_place, image_of, fresh_space, jump_words, small_space, sum_words, with_stack};

use ad_base::End;
use ad_isa::Test;

/// The arithmetic that is clear, and some that isn't.
pub fn law_worked_values()
    ensures sum_of_numbers { sum_of (Num (2 ^ 64 - 1)) (Num 2) ≡ Ok (Num 1) }
    ensures sum { (p : Part) → sum_of (At p 8) (Num 4) ≡ Ok (At p 12) }
    ensures sum_the_other_way { (p : Part) → sum_of (Num (2 ^ 64 - 8)) (At p 8) ≡ Ok (At p 0) }
    ensures sum_of_addresses { (p q : Part) (o u : ℕ) → sum_of (At p o) (At q u) ≡ Err Arithmetic }
    ensures difference { (p : Part) → difference_of (At p 8) (Num 12) ≡ Ok (At p (2 ^ 64 - 4)) }
    ensures difference_in_a_part { difference_of (At Stack 8) (At Stack 12) ≡ Ok (Num (2 ^ 64 - 4)) }
    ensures difference_across_parts { difference_of (At Stack 8) (At Movable 4) ≡ Err Arithmetic }
    ensures difference_from_a_number { (p : Part) → difference_of (Num 12) (At p 8) ≡ Err Arithmetic }
    ensures even { (p : Part) → conjunction_of (At p 7) (Num (2 ^ 64 - 2)) ≡ Ok (At p 6) }
    ensures even_number { conjunction_of (Num 0x40001) (Num (2 ^ 64 - 2)) ≡ Ok (Num 0x40000) }
    ensures page { (p : Part) → conjunction_of (Num (2 ^ 64 - 4096)) (At p 8195) ≡ Ok (At p 8192) }
    ensures offset_in_page { (p : Part) → conjunction_of (At p 8195) (Num 4095) ≡ Ok (Num 3) }
    ensures no_bit { (p : Part) → conjunction_of (At p 8195) (Num 0) ≡ Ok (Num 0) }
    ensures all_bits { (p : Part) → conjunction_of (At p 8195) (Num (2 ^ 64 - 1)) ≡ Ok (At p 8195) }
    ensures wider_than_a_page { (p : Part) → conjunction_of (At p 8195) (Num 8191) ≡ Err Arithmetic }
    ensures no_mask { (p : Part) → conjunction_of (At p 8195) (Num 5) ≡ Err Arithmetic }
    ensures other { (p : Part) (o b : ℕ) (f : ℕ → ℕ → ℕ) → other_of f (At p o) (Num b) ≡ Err Arithmetic }
{}

/// Comparisons, where each part has 8 bytes: of addresses in bounds by their offsets, or as different ones; with
/// numbers outside all places; and some that aren't clear.
pub fn law_worked_comparisons()
    ensures below { holds_of (λ _. 8) Test.Lt (At Stack 4) (At Stack 8) ≡ Ok true }
    ensures behind_bounds { holds_of (λ _. 8) Test.Eq (At Stack 9) (At Stack 9) ≡ Err Comparison }
    ensures across_parts { holds_of (λ _. 8) Test.Ne (At Stack 4) (At Movable 4) ≡ Ok true }
    ensures order_across_parts { holds_of (λ _. 8) Test.Ltu (At Stack 4) (At Movable 4) ≡ Err Comparison }
    ensures zero { holds_of (λ _. 8) Test.Eq (At Stack 4) (Num 0) ≡ Ok false }
    ensures below_all_places { holds_of (λ _. 8) Test.Geu (At Stack 4) (Num 0x7ffff) ≡ Ok true }
    ensures above_all_places { holds_of (λ _. 8) Test.Lt (At Stack 4) (Num (2 ^ 34)) ≡ Ok true }
    ensures negative { holds_of (λ _. 8) Test.Lt (At Stack 4) (Num (2 ^ 64 - 1)) ≡ Ok false }
    ensures below_a_great_number { holds_of (λ _. 8) Test.Ltu (At Stack 4) (Num (2 ^ 64 - 1)) ≡ Ok true }
    ensures among_places { holds_of (λ _. 8) Test.Eq (At Stack 4) (Num 0x80000) ≡ Err Comparison }
{}

/// What is found where an instruction is fetched: in the stack, which may not be fetched, beside it and far
/// from it; and at numbers before and behind all regions.
pub fn law_worked_fetches()
    ensures denied { (i : Image) → fetched_value (fresh_space i) (At Stack 16) ≡ Ok (Err End.Denied) }
    ensures misaligned { (i : Image) → fetched_value (fresh_space i) (At Stack 18) ≡ Ok (Err End.Misaligned) }
    ensures behind { (i : Image) → fetched_value (fresh_space i) (At Stack 16384) ≡ Ok (Err End.Fault) }
    ensures far_behind { (i : Image) → fetched_value (fresh_space i) (At Stack 20476) ≡ Ok (Err End.Fault) }
    ensures a_page_behind { (i : Image) → fetched_value (fresh_space i) (At Stack 20480) ≡ Err Address }
    ensures before { (i : Image) → fetched_value (fresh_space i) (At Stack (2 ^ 64 - 4096)) ≡ Ok (Err End.Fault) }
    ensures far_before { (i : Image) → fetched_value (fresh_space i) (At Stack (2 ^ 64 - 4100)) ≡ Err Address }
    ensures below_all_places { (i : Image) → fetched_value (fresh_space i) (Num 0x7fffc) ≡ Ok (Err End.Fault) }
    ensures above_all_places { (i : Image) → fetched_value (fresh_space i) (Num (2 ^ 34)) ≡ Ok (Err End.Fault) }
{}

/// What loads find and stores leave, in a few bytes of a module and a stack: an address that was stored is loaded again
/// as it was, a part of its bytes isn't clear, nor are its bytes beside others; numbers have their sign or none; and the
/// refusals.
pub fn law_worked_accesses()
    ensures address { loaded_value 8 true (with_stack 8 (At Movable 8) 8 small_space) (At Stack 8) ≡ Ok (Ok (At Movable 8)) }
    ensures local_word { loaded_value 8 true small_space (At Movable 8) ≡ Ok (Ok (At Movable 40)) }
    ensures half_an_address { loaded_value 4 true (with_stack 8 (At Movable 8) 8 small_space) (At Stack 8) ≡ Err MixedBytes }
    ensures beside_a_number { loaded_value 8 true (with_stack 4 (Num 7) 8 (with_stack 8 (At Movable 8) 8 small_space)) (At Stack 8) ≡ Err MixedBytes }
    ensures two_addresses { loaded_value 8 true (with_stack 4 (At Stack 8) 8 (with_stack 8 (At Movable 8) 8 small_space)) (At Stack 8) ≡ Err MixedBytes }
    ensures number { loaded_value 4 false (with_stack 8 (Num 0x1122334455667788) 0 small_space) (At Stack 4) ≡ Ok (Ok (Num 0x11223344)) }
    ensures with_sign { loaded_value 1 true (with_stack 1 (Num 0x1ff) 0 small_space) (At Stack 0) ≡ Ok (Ok (Num (2 ^ 64 - 1))) }
    ensures without_sign { loaded_value 2 false (with_stack 1 (Num 0x1ff) 0 small_space) (At Stack 0) ≡ Ok (Ok (Num 255)) }
    ensures stored { stored_value 8 (At Movable 8) small_space (At Stack 8) ≡ Ok (Ok (with_stack 8 (At Movable 8) 8 small_space)) }
    ensures denied { stored_value 8 (Num 1) small_space (At Movable 0) ≡ Ok (Err End.Denied) }
    ensures misaligned { stored_value 8 (Num 1) small_space (At Movable 4) ≡ Ok (Err End.Misaligned) }
    ensures behind { loaded_value 8 true small_space (At Stack 16384) ≡ Ok (Err End.Fault) }
    ensures before { loaded_value 8 true small_space (At Stack (2 ^ 64 - 4096)) ≡ Ok (Err End.Fault) }
    ensures a_page_behind { loaded_value 8 true small_space (At Stack 20480) ≡ Err Address }
    ensures below_all_places { loaded_value 8 true small_space (Num 0x7fff8) ≡ Ok (Err End.Fault) }
    ensures among_places { loaded_value 8 true small_space (Num 0x80000) ≡ Err Address }
{}

/// A run keeps an address where a byte of the data of either part, a note, a word of the device queue or the
/// number that is returned comes from one; and it keeps none where all these are numbers.
pub fn law_worked_keeps()
    ensures numbers { (i : Image) → keeps_none (ended_with i (Number 1) (Number 2) (Num 3) (Num 4) (Num 5)) ≡ true }
    ensures writable { (i : Image) → keeps_none (ended_with i (OfAddress 0 Movable 8) (Number 2) (Num 3) (Num 4) (Num 5)) ≡ false }
    ensures fixed { (i : Image) → keeps_none (ended_with i (Number 1) (OfAddress 7 Stack 8) (Num 3) (Num 4) (Num 5)) ≡ false }
    ensures note { (i : Image) → keeps_none (ended_with i (Number 1) (Number 2) (At Movable 8) (Num 4) (Num 5)) ≡ false }
    ensures queue { (i : Image) → keeps_none (ended_with i (Number 1) (Number 2) (Num 3) (At Stack 8) (Num 5)) ≡ false }
    ensures returned { (i : Image) → keeps_none (ended_with i (Number 1) (Number 2) (Num 3) (Num 4) (At Movable 8)) ≡ false }
{}

/// What the symbolic machine says of calls of small modules, wherever their immovable parts lie, and how
/// many calls their clear histories have. The sum of two arguments is clear at each call, and the end of its
/// fuel too, and a word that is no instruction. A module that replies its own address keeps it, and what it replies after
/// that is lost. A sum of two addresses isn't clear, for its arithmetic, at step 0; nor is their order. A store at most a
/// page below the stack is a fault, and isn't clear further below.
pub fn law_worked_replays()
    ensures sum { (fixed : Place)
        → replay (image_of sum_words fixed) 100 (asked (2 ∷ 3 ∷ []) ∷ asked (4 ∷ 3 ∷ []) ∷ [])
        ≡ Clear (End.Returned 5) [] ∷ Clear (End.Returned 7) [] ∷ [] }
    ensures sum_history { (fixed : Place)
        → clear_calls (replay (image_of sum_words fixed) 100 (asked (2 ∷ 3 ∷ []) ∷ asked (4 ∷ 3 ∷ []) ∷ [])) ≡ 2 }
    ensures fuel { (fixed : Place)
        → replay (image_of sum_words fixed) 1 (asked (2 ∷ 3 ∷ []) ∷ [])
        ≡ Clear End.Fuel [] ∷ [] }
    ensures own_address { (fixed : Place)
        → replay (image_of (0x00000517 ∷ 0x00008067 ∷ []) fixed) 100 (asked [] ∷ asked [] ∷ [])
        ≡ Keeps ∷ Lost ∷ [] }
    ensures own_address_history { (fixed : Place)
        → clear_calls (replay (image_of (0x00000517 ∷ 0x00008067 ∷ []) fixed) 100 (asked [] ∷ asked [] ∷ [])) ≡ 0 }
    ensures sum_of_addresses { (fixed : Place)
        → replay (image_of (0x00210533 ∷ 0x00008067 ∷ []) fixed) 100 (asked [] ∷ asked [] ∷ [])
        ≡ NotClear Arithmetic 0 ∷ Lost ∷ [] }
    ensures sum_of_addresses_dropped { (fixed : Place)
        → replay (image_of (0x00210033 ∷ 0x00008067 ∷ []) fixed) 100 (asked [] ∷ [])
        ≡ NotClear Arithmetic 0 ∷ [] }
    ensures no_instruction { (fixed : Place)
        → replay (image_of (0x00150513 ∷ 0 ∷ []) fixed) 100 (asked [] ∷ [])
        ≡ Clear End.Illegal [] ∷ [] }
    ensures order_across_parts { (fixed : Place)
        → replay (image_of (0x00000517 ∷ 0x00256463 ∷ []) fixed) 100 (asked [] ∷ [])
        ≡ NotClear Comparison 1 ∷ [] }
    ensures below_the_stack { (fixed : Place)
        → replay (image_of (0xffffc2b7 ∷ 0xff828293 ∷ 0x002282b3 ∷ 0x0002b023 ∷ 0x00008067 ∷ []) fixed) 100 (asked [] ∷ [])
        ≡ Clear End.Fault [] ∷ [] }
    ensures far_below_the_stack { (fixed : Place)
        → replay (image_of (0xffffb2b7 ∷ 0xc7828293 ∷ 0x002282b3 ∷ 0x0002b023 ∷ 0x00008067 ∷ []) fixed) 100 (asked [] ∷ [])
        ≡ NotClear Address 3 ∷ [] }
{}

/// What it says of services, which code reaches at its own address or in the last words: a number that is noted, sent or
/// given up with is clear; a call that sends an address, or gives up with one, keeps it; and a word that was sent is
/// taken by the next call.
pub fn law_worked_channels()
    ensures noted { (fixed : Place)
        → replay (image_of (0x000402b7 ∷ 0x01028067 ∷ []) fixed) 100 (asked (7 ∷ []) ∷ [])
        ≡ Clear (End.Returned 7) (7 ∷ []) ∷ [] }
    ensures given_up { (fixed : Place)
        → replay (image_of (0x000402b7 ∷ 0x02028067 ∷ []) fixed) 100 (asked (7 ∷ []) ∷ [])
        ≡ Clear (End.Abort 7) [] ∷ [] }
    ensures sent_and_taken { (fixed : Place)
        → replay (image_of jump_words fixed) 100 (asked (0x40030 ∷ []) ∷ asked (0x40040 ∷ []) ∷ asked (0x40040 ∷ []) ∷ [])
        ≡ Clear (End.Returned 1) [] ∷ Clear (End.Returned 0x40030) [] ∷ Clear (End.Returned 0) [] ∷ [] }
    ensures given_up_with_an_address { (fixed : Place)
        → replay (image_of (0x00000517 ∷ 0x000402b7 ∷ 0x02028067 ∷ []) fixed) 100 (asked [] ∷ [])
        ≡ Keeps ∷ [] }
    ensures sent_an_address { (fixed : Place)
        → replay (image_of (0x00000517 ∷ 0x000402b7 ∷ 0x03028067 ∷ []) fixed) 100 (asked [] ∷ [])
        ≡ Keeps ∷ [] }
{}

/// What it says of jumps out of the text: at an offset to the stubs, where no instruction is, to the fixed
/// table, which may not be fetched from, to the byte behind the part, to the page behind that, where it isn't
/// clear what lies there, even where no fuel is left for it. And at a number to the fixed table and the stubs of
/// the immovable part, to the gate, and to an address that another part may have.
pub fn law_worked_jumps()
    ensures to_stubs { (fixed : Place)
        → replay (image_of (0x00001517 ∷ 0x00050067 ∷ []) fixed) 100 (asked [] ∷ [])
        ≡ Clear End.Illegal [] ∷ [] }
    ensures to_table { (fixed : Place)
        → replay (image_of (0x00002517 ∷ 0x00050067 ∷ []) fixed) 100 (asked [] ∷ [])
        ≡ Clear End.Denied [] ∷ [] }
    ensures behind { (fixed : Place)
        → replay (image_of (0x00004517 ∷ 0x00050067 ∷ []) fixed) 100 (asked [] ∷ [])
        ≡ Clear End.Fault [] ∷ [] }
    ensures far_behind { (fixed : Place)
        → replay (image_of (0x00005517 ∷ 0x00050067 ∷ []) fixed) 100 (asked [] ∷ [])
        ≡ NotClear Address 2 ∷ [] }
    ensures far_behind_spent { (fixed : Place)
        → replay (image_of (0x00005517 ∷ 0x00050067 ∷ []) fixed) 2 (asked [] ∷ [])
        ≡ NotClear Address 2 ∷ [] }
    ensures to_fixed_table { replay (image_of jump_words fixed_place) 100 (asked (7715430400 ∷ []) ∷ [])
        ≡ Clear End.Denied [] ∷ [] }
    ensures to_fixed_stubs { replay (image_of jump_words fixed_place) 100 (asked (7715426304 ∷ []) ∷ [])
        ≡ Clear End.Illegal [] ∷ [] }
    ensures clear_before_unclear { replay (image_of jump_words fixed_place) 100 (asked (0x40000 ∷ []) ∷ asked (0x100000 ∷ []) ∷ [])
        ≡ Clear (End.Returned 0x40000) [] ∷ NotClear Address 1 ∷ [] }
    ensures clear_before_unclear_history { clear_calls (replay (image_of jump_words fixed_place) 100 (asked (0x40000 ∷ []) ∷ asked (0x100000 ∷ []) ∷ [])) ≡ 1 }
{}

/// The answers for calls in order are those of a module that is called in order, and what it keeps is what the later calls
/// begin with.
pub fn law_replay_makes_calls()
    ensures { (image : Image) (fuel : ℕ) (kept : Option Kept) (a : Asked) (more : List Asked)
        → answers_from image fuel kept (a ∷ more)
        ≡ answer_to fuel (record { image = image; kept = kept }) a ∷ answers_from image fuel (kept_after fuel (record { image = image; kept = kept }) a) more }
{}
