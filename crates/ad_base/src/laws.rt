//! Laws of the address layout. Each function makes no call: its contract is the law.

ghost use Rattle.std.specs.Prelude.{◌≡◌, ◌<◌, ◌≤◌, ◌+◌, ◌*◌, ◌^◌};
ghost use Rattle.ad_base.specs.declared.place.Place.{Place};
ghost use Rattle.ad_base.specs.Place.{base_of, packed, IsPlace};

use crate::layout::{
    FETCH_BYTES, FILE_BYTES, FIRST_SERVICE, FRAMES, GATE, INSTRUCTION_BYTES, K_ABORT, K_IN, K_NOTE,
    K_OUT, LOCAL_PAGES, LOCAL_WORDS, MAPPINGS, MODULE_REGION, MODULE_REGIONS, MODULES, NOTES,
    PAGE_BYTES, PART_PAGES, QUEUE_WORDS, REGION_BYTES, REGION_PAGES, REGIONS, SERVICE_BYTES,
    SERVICES, STACK_PAGES, STACK_REGION, STACK_REGIONS, STUB_PAGES, TABLE_PAGES, TABLE_WORDS,
    WORD_BYTES, WORKERS,
};

/// The numbers of the address layout.
pub fn law_layout()
    ensures page { PAGE_BYTES ≡ 4096 }
    ensures region { REGION_BYTES ≡ REGION_PAGES * PAGE_BYTES }
    ensures region_pages { REGION_PAGES ≡ 64 }
    ensures regions { REGIONS ≡ 65536 }
    ensures module_region { MODULE_REGION ≡ 2 }
    ensures module_regions { MODULE_REGION + MODULE_REGIONS ≡ STACK_REGION }
    ensures stack_region { STACK_REGION ≡ 32768 }
    ensures stack_regions { STACK_REGION + STACK_REGIONS ≡ REGIONS }
    ensures mappings { MAPPINGS ≡ 4095 }
    ensures frames { FRAMES ≡ 256 }
    ensures modules { MODULES ≡ 8 }
    ensures workers { WORKERS ≡ 64 }
    ensures gate { GATE ≡ REGION_BYTES }
    ensures services { FIRST_SERVICE ≡ GATE + 16 }
    ensures service { SERVICE_BYTES ≡ 16 }
    ensures services_are { SERVICES ≡ 4 }
    ensures note { K_NOTE ≡ 0 }
    ensures abort { K_ABORT ≡ 1 }
    ensures out { K_OUT ≡ 2 }
    ensures in_ { K_IN ≡ 3 }
    ensures notes { NOTES ≡ 16 }
    ensures queue { QUEUE_WORDS ≡ 256 }
    ensures fetch { FETCH_BYTES ≡ 4 }
    ensures instruction { INSTRUCTION_BYTES ≡ 4 }
    ensures part { PART_PAGES ≡ 62 }
    ensures stack { STACK_PAGES ≡ 4 }
    ensures word { WORD_BYTES ≡ 8 }
    ensures stubs { STUB_PAGES ≡ 1 }
    ensures local { LOCAL_WORDS ≡ 512 }
    ensures local_fills { LOCAL_WORDS * WORD_BYTES ≡ LOCAL_PAGES * PAGE_BYTES }
    ensures table { TABLE_WORDS ≡ 256 }
    ensures table_fits { TABLE_WORDS * WORD_BYTES ≤ TABLE_PAGES * PAGE_BYTES }
    ensures file { FILE_BYTES ≡ 1048576 }
{}

/// A mapping lies inside its region, with a page before it and a page behind it, and above region 1.
pub fn law_place_of_a_part()
    ensures before { (p : Place) → IsPlace p → p.region * REGION_BYTES + PAGE_BYTES ≤ base_of p }
    ensures behind { (p : Place) → IsPlace p → base_of p + p.pages * PAGE_BYTES + PAGE_BYTES ≤ (p.region + 1) * REGION_BYTES }
    ensures above_region_1 { (p : Place) → IsPlace p → 2 * REGION_BYTES < base_of p }
{}

/// Two places never have one word, and bits 56 to 63 of a place's word are zero.
pub fn law_packing()
    ensures one { (p q : Place) → IsPlace p → IsPlace q → packed p ≡ packed q → p ≡ q }
    ensures fits { (p : Place) → IsPlace p → packed p < 2 ^ 56 }
    ensures word { packed (record { region = 13105; start = 43; pages = 4; mapping = 3; frame = 0 }) ≡ 0x30102b3331 }
{}
