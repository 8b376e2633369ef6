//! Where a mapping lies.

ghost use Rattle.std.specs.Prelude.{◌≡◌, ◌<◌, ◌^◌, ◌↔◌, IsTrue, IfSome, IfNone};
ghost use Rattle.ad_base.specs.declared.place.Place.{Place};
ghost use Rattle.ad_base.specs.Place.{base_of, packed, page_number, IsInside, IsPlace};

use crate::layout::{MAPPINGS, MODULE_REGION, PAGE_BYTES, REGION_BYTES, REGION_PAGES};

/// The place of a mapping: its region, the page of the region that it starts at, its pages, its
/// mapping number and the number of its table frame.
#[derive(Clone, Copy, Debug, PartialEq, Eq)]
pub struct Place {
    pub region: u16,
    pub start: u16,
    pub pages: u16,
    pub mapping: u16,
    pub frame: u8,
}

impl Place {
    /// The word that has the region in bits 0 to 15, the start page in 16 to 25, the pages in 26 to
    /// 35, the mapping number in 36 to 47 and the frame in 48 to 55; bits 56 to 63 are zero. Nothing is
    /// said of numbers that are no place's.
    pub fn pack(&self) -> u64
        ensures value { IsPlace self.now → result ≡ packed self.now }
        ensures fits { IsPlace self.now → result < 2 ^ 56 }
    {
        u64::from(self.region)
            | u64::from(self.start) << 16
            | u64::from(self.pages) << 26
            | u64::from(self.mapping) << 36
            | u64::from(self.frame) << 48
    }

    /// The place of a word, or `None` where no place has it.
    pub fn unpack(word: u64) -> Option<Place>
        ensures form { IfSome result IsPlace }
        ensures value { IfSome result (λ p. packed p ≡ word) }
        ensures none { IfNone result ((p : Place) → IsPlace p → packed p ≡ word → ⊥) }
    {
        if word >> 56 != 0 {
            return None;
        }
        let place = Place {
            region: (word & 0xffff) as u16,
            start: (word >> 16 & 0x3ff) as u16,
            pages: (word >> 26 & 0x3ff) as u16,
            mapping: (word >> 36 & 0xfff) as u16,
            frame: (word >> 48) as u8,
        };
        place.is_possible().then_some(place)
    }

    /// Tests whether the numbers are those of a place.
    fn is_possible(&self) -> bool
        ensures { IsTrue result ↔ IsPlace self.now }
    {
        u64::from(self.region) >= MODULE_REGION
            && self.start >= 1
            && self.pages >= 1
            && u64::from(self.start) + u64::from(self.pages) < REGION_PAGES
            && self.mapping >= 1
            && u64::from(self.mapping) <= MAPPINGS
    }

    /// The address of the first byte.
    pub fn base(&self) -> u64
        ensures value { result ≡ base_of self.now }
        ensures bound { result < 2 ^ 35 }
    {
        u64::from(self.region) * REGION_BYTES + u64::from(self.start) * PAGE_BYTES
    }

    /// The number of the page that an address is in, counted from 0, or `None` where the address
    /// isn't in the place.
    pub fn page_of(&self, va: u64) -> Option<u64>
        ensures inside { IfSome result (λ page. IsInside self.now va) }
        ensures page { IfSome result (λ page. page ≡ page_number self.now va) }
        ensures none { IfNone result (IsInside self.now va → ⊥) }
    {
        let offset = va.checked_sub(self.base())?;
        let page = offset / PAGE_BYTES;
        (page < u64::from(self.pages)).then_some(page)
    }
}
