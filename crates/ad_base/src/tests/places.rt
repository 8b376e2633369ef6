//! Places, and the words that they pack into.

use crate::Place;

/// The place in region 13105 that has pages 43 to 46.
const PLACE: Place = Place {
    region: 13105,
    start: 43,
    pages: 4,
    mapping: 3,
    frame: 0,
};

#[test]
fn a_place_packs_into_its_word(rt: HostRuntime) {
    let last = Place {
        region: 65535,
        start: 1,
        pages: 62,
        mapping: 4095,
        frame: 255,
    };
    let word = PLACE.pack();
    assert_eq!(rt; word, 0x30_102b_3331);
    assert_eq!(rt; Place::unpack(word), Some(PLACE));
    let word = last.pack();
    assert_eq!(rt; word, 0x00ff_fff0_f801_ffff);
    assert_eq!(rt; Place::unpack(word), Some(last));
}

#[test]
fn other_words_are_no_places(rt: HostRuntime) {
    // All zeros; the mapping number 0; the regions 0 and 1; the start page 0; no page; a last page of
    // 63; bit 56; all ones.
    for word in [
        0,
        0x102b_3331,
        0x30_102b_0000,
        0x30_102b_0001,
        0x30_1000_3331,
        0x30_002b_3331,
        0x30_103c_3331,
        0x0100_0030_102b_3331,
        u64::MAX,
    ] {
        assert_eq!(rt; Place::unpack(word), None, "{word}");
    }
    assert!(rt; Place::unpack(0x30_103b_3331).is_some());
}

#[test]
fn an_address_is_in_a_page(rt: HostRuntime) {
    let base = PLACE.base();
    assert!(rt; base == 3_435_573_248);
    for (va, page) in [
        (base, Some(0)),
        (base + 4095, Some(0)),
        (base + 4096, Some(1)),
        (base + 16383, Some(3)),
        (base + 16384, None),
        (base - 1, None),
        (0, None),
        (u64::MAX, None),
    ] {
        assert_eq!(rt; PLACE.page_of(va), page, "{va}");
    }
}
