//! Worked examples of the plain machine. Each function makes no call: its contract is the example.

ghost use Rattle.std.specs.Prelude.{◌≡◌, ◌-◌, ◌^◌, ℕ, List, [], ◌∷◌, ◌++◌, replicate};
ghost use Rattle.ad_base.specs.Segments.{Fetch, Load, bytes_of_role, extents, is_data, is_fixed_data};
ghost use Rattle.ad_core.specs.Memory.{Memory};
ghost use Rattle.ad_core.specs.Plain.{plain_call};
ghost use Rattle.ad_core.specs.Examples.{access, code_at, constants_at, data_call, misaligned_reply, service_reply};
ghost use Rattle.ad_core.specs.Turn.{reached};
ghost use Rattle.ad_base.specs.Book.{Contents};
ghost use Rattle.ad_base.specs.declared.image.Image.{Image};
ghost use Rattle.ad_base.specs.declared.place.Place.{Place};

use ad_base::End;

/// Calls of a few words of code at 0x100000, whose sp is 0.
pub fn law_worked_calls()
    ensures sum { (plain_call 100 0x100000 (2 ∷ 3 ∷ []) 0
        (code_at 0x100000 (0x00b50533 ∷ 0x00008067 ∷ []))).end
        ≡ End.Returned 5 }
    ensures fuel_spent { (plain_call 3 0x100000 (4 ∷ []) 0
        (code_at 0x100000 (0x00150513 ∷ 0x00150513 ∷ 0x00150513 ∷ 0x00008067 ∷ []))).end
        ≡ End.Fuel }
    ensures fuel_enough { (plain_call 4 0x100000 (4 ∷ []) 0
        (code_at 0x100000 (0x00150513 ∷ 0x00150513 ∷ 0x00150513 ∷ 0x00008067 ∷ []))).end
        ≡ End.Returned 7 }
    ensures illegal { (plain_call 100 0x100000 [] 0 (code_at 0x100000 (0 ∷ []))).end
        ≡ End.Illegal }
    ensures fault { (plain_call 100 0x100000 [] 0 (code_at 0x100000 (0x00150513 ∷ []))).end
        ≡ End.Fault }
    ensures misaligned_entry { (plain_call 0 0x100002 [] 0 (code_at 0x100000 (0x00008067 ∷ []))).end
        ≡ End.Misaligned }
    ensures misaligned_target { (plain_call 100 0x100000 (6 ∷ []) 0
        (code_at 0x100000 (0x00050067 ∷ []))).end
        ≡ End.Misaligned }
    ensures zero_register { (plain_call 100 0x100000 (6 ∷ []) 0
        (code_at 0x100000 (0x00150013 ∷ 0x00000533 ∷ 0x00008067 ∷ []))).end
        ≡ End.Returned 0 }
    ensures negative { (plain_call 100 0x100000 (6 ∷ []) 0
        (code_at 0x100000 (0xfff50513 ∷ 0x00008067 ∷ []))).end
        ≡ End.Returned 5 }
    ensures at_the_gate { (plain_call 0 0x40000 (7 ∷ []) 0 (code_at 0x100000 [])).end
        ≡ End.Returned 7 }
    ensures kept_address { (plain_call 100 0x40004 [] 0 (code_at 0x40000 (0 ∷ 0x00008067 ∷ []))).end
        ≡ End.Fault }
    ensures denied { (plain_call 100 0x100000 [] 0 (constants_at 0x100000 (0x00008067 ∷ []))).end
        ≡ End.Denied }
    ensures bit_0_cleared { (plain_call 100 0x100000 (0x40001 ∷ []) 0
        (code_at 0x100000 (0x00050067 ∷ []))).end
        ≡ End.Returned 0x40001 }
    ensures link_to_the_source { (plain_call 100 0x100000 (0x40000 ∷ []) 0
        (code_at 0x100000 (0x00050567 ∷ []))).end
        ≡ End.Returned 0x100004 }
    ensures own_address { (plain_call 100 0x100000 [] 0
        (code_at 0x100000 (0x00000517 ∷ 0x00008067 ∷ []))).end
        ≡ End.Returned 0x100000 }
    ensures own_address_behind { (plain_call 100 0x100000 [] 0
        (code_at 0x100000 (0x00150513 ∷ 0x00000517 ∷ 0x00008067 ∷ []))).end
        ≡ End.Returned 0x100004 }
    ensures a_page_on { (plain_call 100 0x100000 [] 0
        (code_at 0x100000 (0x00001517 ∷ 0x00008067 ∷ []))).end
        ≡ End.Returned 0x101000 }
    ensures a_page_back { (plain_call 100 0x100000 [] 0
        (code_at 0x100000 (0xfffff517 ∷ 0x00008067 ∷ []))).end
        ≡ End.Returned 0xff000 }
{}

/// Calls of a few words of code at 0x100000, beside eight bytes of data at 0x200000, which load and store. a0 is the
/// address, and a1 the value. An address that is no multiple of the size is refused before one of region 1, that before
/// one which no segment holds, and last one whose segment lacks the right.
pub fn law_worked_accesses()
    ensures sign { (data_call (0x200003 ∷ 0x180 ∷ []) (0x00b50023 ∷ 0x00050503 ∷ 0x00008067 ∷ [])).end
        ≡ End.Returned (2 ^ 64 - 0x80) }
    ensures no_sign { (data_call (0x200003 ∷ 0x180 ∷ []) (0x00b50023 ∷ 0x00054503 ∷ 0x00008067 ∷ [])).end
        ≡ End.Returned 0x80 }
    ensures lowest_byte_first { (data_call (0x200004 ∷ []) (0x00052503 ∷ 0x00008067 ∷ [])).end
        ≡ End.Returned 0x08070605 }
    ensures two_bytes { bytes_of_role is_data (data_call (0x200002 ∷ 0x12345678 ∷ []) (0x00b51023 ∷ 0x00008067 ∷ [])).memory.segments
        ≡ 1 ∷ 2 ∷ 0x78 ∷ 0x56 ∷ 5 ∷ 6 ∷ 7 ∷ 8 ∷ [] }
    ensures register_0 { (data_call (0x200000 ∷ []) (0x00052003 ∷ 0x00000533 ∷ 0x00008067 ∷ [])).end
        ≡ End.Returned 0 }
    ensures code_is_loaded { (data_call (0x100000 ∷ []) (0x00056503 ∷ 0x00008067 ∷ [])).end
        ≡ End.Returned 0x00056503 }
    ensures misaligned_in_region_1 { (data_call (0x40002 ∷ []) (0x00052503 ∷ 0x00008067 ∷ [])).end
        ≡ End.Misaligned }
    ensures load_from_the_gate { (data_call (0x40000 ∷ []) (0x00053503 ∷ 0x00008067 ∷ [])).end
        ≡ End.Fault }
    ensures load_behind { (data_call (0x200008 ∷ []) (0x00052003 ∷ 0x00008067 ∷ [])).end
        ≡ End.Fault }
    ensures misaligned_in_code { (data_call (0x100002 ∷ []) (0x00b52023 ∷ 0x00008067 ∷ [])).end
        ≡ End.Misaligned }
    ensures store_to_code { (data_call (0x100000 ∷ []) (0x00b52023 ∷ 0x00008067 ∷ [])).end
        ≡ End.Denied }
    ensures store_to_a_service { (data_call (0x40010 ∷ []) (0x00b53023 ∷ 0x00008067 ∷ [])).end
        ≡ End.Fault }
    ensures fetch_from_data { (data_call (0x200000 ∷ []) (0x00050067 ∷ [])).end ≡ End.Denied }
    ensures accesses { (data_call (0x200000 ∷ []) (0x00053503 ∷ 0x00b52023 ∷ 0x00008067 ∷ [])).accesses
        ≡ access Fetch 0x100000 4 ∷ access Load 0x200000 8 ∷ access Fetch 0x100004 4 ∷ [] }
{}

/// Calls of a word of code that jumps to the address of a service, or to another one of region 1; a0 is its argument,
/// and ra the gate. What the call replies is its end, its notes and the queue that it leaves. A service that can't return
/// to ra is made, and then the call ends.
pub fn law_worked_services()
    ensures note { service_reply 0x40010 7 (replicate 15 1) [] ≡ (End.Returned 7, replicate 15 1 ++ 7 ∷ [], []) }
    ensures note_too_many { service_reply 0x40010 7 (replicate 16 1) [] ≡ (End.NotesFull, replicate 16 1, []) }
    ensures abort { service_reply 0x40020 7 (1 ∷ []) (2 ∷ []) ≡ (End.Abort 7, 1 ∷ [], 2 ∷ []) }
    ensures out { service_reply 0x40030 7 [] (replicate 255 1) ≡ (End.Returned 1, [], replicate 255 1 ++ 7 ∷ []) }
    ensures out_full { service_reply 0x40030 7 [] (replicate 256 1) ≡ (End.Returned 0, [], replicate 256 1) }
    ensures in_oldest { service_reply 0x40040 7 [] (5 ∷ 6 ∷ []) ≡ (End.Returned 5, [], 6 ∷ []) }
    ensures in_empty { service_reply 0x40040 7 [] [] ≡ (End.Returned 0, [], []) }
    ensures between { service_reply 0x40014 7 [] [] ≡ (End.Fault, [], []) }
    ensures behind { service_reply 0x40050 7 [] [] ≡ (End.Fault, [], []) }
    ensures misaligned_return { misaligned_reply 0x40010 7 [] [] ≡ (End.Misaligned, 7 ∷ [], []) }
    ensures abort_before_it { misaligned_reply 0x40020 7 [] [] ≡ (End.Abort 7, [], []) }
{}

/// The data of the parts, among the segments that a call reaches.
pub fn law_data_segments()
    ensures fixed { (i : Image) (book : Contents) (under stack : Place) → bytes_of_role is_fixed_data (reached i book under stack) ≡ book.fixed }
    ensures writable { (i : Image) (book : Contents) (under stack : Place) → bytes_of_role is_data (reached i book under stack) ≡ book.writable }
{}

/// A call leaves each segment where it was and as long as it was, with its rights and its role.
pub fn law_extents_stay()
    ensures { (fuel entry sp : ℕ) (args : List ℕ) (m : Memory)
        → extents (plain_call fuel entry args sp m).memory.segments ≡ extents m.segments }
{}
