//! What no clause says: that the random words are those of ChaCha, and that the places are those of
//! worked examples. The numbers come from the standard's algorithm in another language.

use crate::placer::{Placer, generator};
use ad_base::{Kind, MODULE_REGION, MODULE_REGIONS, OutOfMemory, PART_PAGES, Place};
use rand_chacha::ChaCha20Rng;
use rand_core::utils::NextWord;
use std::alloc::Global;
use std::process::Abort;
use std::test::Fail;

#[test]
fn words_of_seed_0(rt: HostRuntime) {
    let words: [u32; 10] = [
        0xade0_b876,
        0x903d_f1a0,
        0xe56a_5d40,
        0x28bd_8653,
        0xb819_d2bd,
        0x1aed_8da0,
        0xccef_36a8,
        0xc70d_778b,
        0x7c59_41da,
        0x8d48_5751,
    ];
    let mut generator = generator(0);
    for word in words {
        assert_eq!(rt; generator.next_word(), word);
    }
}

/// Draws a place of a run that isn't too long, for pages that a part can have.
fn draw(rt: &impl Abort, placer: &mut Placer, kind: Kind, pages: u16) -> Place {
    assert!(rt; placer.left() > 0);
    assert!(rt; 1 <= pages && pages <= PART_PAGES);
    placer.next(kind, pages)
}

/// A mapping's kind and pages, and the region and the start page of its place.
type Row = (Kind, u16, u16, u16);

const WORKED: [Row; 5] = [
    (Kind::Stack, 4, 47222, 24),
    (Kind::Fixed, 2, 29432, 1),
    (Kind::Code, 4, 13105, 43),
    (Kind::Code, 4, 27250, 53),
    (Kind::Code, 4, 13128, 39),
];

const TWO_STACKS: [Row; 2] = [(Kind::Stack, 4, 47222, 24), (Kind::Stack, 4, 56640, 55)];

/// The words of the third and the fifth say one region, so the fifth gets the next one.
const REGION_IS_TAKEN: [Row; 5] = [
    (Kind::Code, 4, 20802, 47),
    (Kind::Code, 4, 4697, 43),
    (Kind::Code, 4, 23800, 56),
    (Kind::Code, 4, 27405, 42),
    (Kind::Code, 4, 23801, 13),
];

/// A seed that takes all eight bytes, and the most and the fewest pages.
const LONG_SEED: [Row; 3] = [
    (Kind::Stack, 62, 60107, 1),
    (Kind::Fixed, 1, 6302, 17),
    (Kind::Code, 61, 23033, 1),
];

fn rows_agree(rt: &impl Abort, alloc: Global, seed: u64, rows: &[Row]) -> Result<(), OutOfMemory> {
    let mut placer = Placer::new(alloc, seed)?;
    for (number, (kind, pages, region, start)) in rows.iter().enumerate() {
        let place = draw(rt, &mut placer, *kind, *pages);
        assert_eq!(rt;
            (place.region, place.start),
            (*region, *start),
            "at seed {seed}"
        );
        assert_eq!(rt; place.pages, *pages, "at seed {seed}");
        assert_eq!(rt; usize::from(place.mapping), number + 1, "at seed {seed}");
    }
    Ok(())
}

#[test]
fn worked_places(rt: HostRuntime) -> Result<(), Fail> {
    rows_agree(&rt, rt.alloc(), 0, &WORKED)?;
    rows_agree(&rt, rt.alloc(), 0, &TWO_STACKS)?;
    rows_agree(&rt, rt.alloc(), 3983, &REGION_IS_TAKEN)?;
    rows_agree(&rt, rt.alloc(), 0xfedc_ba98_7654_3210, &LONG_SEED)?;
    Ok(())
}

/// How many places of a run didn't get the region that their word says, and the sums of the regions and
/// of the start pages.
#[derive(Default, Drop)]
struct Sums {
    moved_on: u64,
    regions: u64,
    starts: u64,
}

impl Sums {
    fn add(&mut self, place: Place, wanted: u64) {
        let region = u64::from(place.region);
        if region != wanted {
            self.moved_on = self.moved_on.saturating_add(1);
        }
        self.regions = self.regions.saturating_add(region);
        self.starts = self.starts.saturating_add(u64::from(place.start));
    }
}

/// The region for a module that the next two words say, before any is taken.
fn wanted_region(words: &mut ChaCha20Rng) -> u64 {
    let word = words.next_word();
    let _ = words.next_word();
    MODULE_REGION + u64::from(word) % MODULE_REGIONS
}

#[test]
fn all_places_of_seed_0(rt: HostRuntime) -> Result<(), Fail> {
    let mut placer = Placer::new(rt.alloc(), 0)?;
    let mut words = generator(0);
    let mut sums = Sums::default();
    // The stack's region is the one of the first row above.
    wanted_region(&mut words);
    sums.add(draw(&rt, &mut placer, Kind::Stack, 4), 47222);
    sums.add(
        draw(&rt, &mut placer, Kind::Fixed, 2),
        wanted_region(&mut words),
    );
    for _ in 0..4093u64 {
        sums.add(
            draw(&rt, &mut placer, Kind::Code, 4),
            wanted_region(&mut words),
        );
    }
    assert_eq!(rt; placer.left(), 0);
    assert_eq!(rt; sums.moved_on, 253);
    assert_eq!(rt; sums.regions, 66_764_703);
    assert_eq!(rt; sums.starts, 122_536);
    Ok(())
}

/// The word of the last one says region 32,766, which is taken, as is the last region for modules.
#[test]
fn search_goes_on_at_the_first_region(rt: HostRuntime) -> Result<(), Fail> {
    let mut placer = Placer::new(rt.alloc(), 250)?;
    for _ in 0..1880u64 {
        draw(&rt, &mut placer, Kind::Code, 4);
    }
    let last = draw(&rt, &mut placer, Kind::Code, 4);
    assert_eq!(rt; (last.region, last.start, last.mapping), (2, 25, 1881));
    Ok(())
}
