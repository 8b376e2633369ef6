//! The places of a run, drawn one by one.

ghost use Rattle.std.specs.Prelude.{◌≡◌, ◌≢◌, ◌+◌, ◌-◌, ◌%◌, ◌<◌, ◌≤◌, [], length, vec_len, IfOk, All, false};
ghost use Rattle.rand_chacha.specs.ChaCha.{of_seed};
ghost use Rattle.ad_base.specs.Place.{IsPlace};
ghost use Rattle.ad_place.specs.Choice.{first_region, region_count, next_place, seed_bytes, with_next};

use crate::region::first_unused;
use ad_base::{Kind, MAPPINGS, OutOfMemory, PART_PAGES, Place, REGION_PAGES, REGIONS};
use byteorder::{ByteOrder, LittleEndian};
use rand_chacha::ChaCha20Rng;
use rand_core::SeedableRng;
use rand_core::utils::NextWord;
use std::alloc::Global;
use std::marker::Model;

/// Draws the places of mappings at random, as a function of a seed.
///
/// The random words, of 32 bits each, are those of ChaCha20 (RFC 8439, 2.3, with a 64-bit counter) on
/// stream 0 from word 0. The key is the seed's eight bytes, the lowest first, and 24 zeros. Each place
/// takes two of them: the first says at which region the search for a region begins that no earlier
/// place has, and the second says the start page. Mappings are numbered from 1.
#[derive(Drop)]
pub struct Placer {
    seed: u64,
    generator: ChaCha20Rng,
    /// Whether a place has the region, for each region.
    used: Vec<bool>,
    places: Vec<Place>,
}

impl Model for Placer {
    ghost use Rattle.std.specs.Prelude.{◌≤◌, vec_capacity};
    ghost use Rattle.ad_base.specs.declared.layout.TheConstants.{MAPPINGS};
    ghost use Rattle.ad_place.specs.Choice.{Drawn};
    ghost use Rattle.ad_place.specs.Private.Kept.{IsKept};

    ghost Value = { Drawn };

    ghost view = { λ p. record { seed = p.seed; places = p.places.items } };

    ghost invariant = { λ p. IsKept p.seed p.generator p.used.items p.places.items × (MAPPINGS ≤ vec_capacity p.places) };
}

impl Placer {
    /// No place drawn yet, and all memory taken that drawing needs.
    pub fn new(alloc: Global, seed: u64) -> Result<Placer, OutOfMemory>
        ensures seed { IfOk result (λ p. p.seed ≡ seed) }
        ensures none { IfOk result (λ p. p.places ≡ []) }
    {
        Ok(Placer {
            seed,
            generator: generator(seed),
            used: none_used(alloc, REGIONS)?,
            places: Vec::with_capacity(alloc, MAPPINGS as usize)?,
        })
    }

    /// The places that were drawn, in order.
    pub fn places(&self) -> &[Place]
        ensures { result.now ≡ self.now.places }
    {
        self.places.as_slice()
    }

    /// How many places may still be drawn. Takes no memory.
    pub fn left(&self) -> u64
        ensures value { result + length self.now.places ≡ MAPPINGS }
    {
        MAPPINGS - self.places.len() as u64
    }

    /// Draws the next place, for a mapping of this kind and so many pages. Takes no memory.
    pub fn next(&mut self, kind: Kind, pages: u16) -> Place
        requires left { length self.old.places < MAPPINGS }
        requires some_page { 1 ≤ pages }
        requires pages_fit { pages ≤ PART_PAGES }
        ensures drawn { result ≡ next_place self.old kind pages }
        ensures after { self.new ≡ with_next self.old kind pages }
        ensures place { IsPlace result }
        ensures pages { result.pages ≡ pages }
        ensures mapping { result.mapping ≡ length self.old.places + 1 }
        ensures frame { result.frame ≡ 0 }
        ensures region_from { first_region kind ≤ result.region }
        ensures region_to { result.region < first_region kind + region_count kind }
        ensures fresh { All (λ p. p.region ≢ result.region) self.old.places }
    {
        let region_word = self.generator.next_word();
        let start_word = self.generator.next_word();
        let region = first_unused(self.used.as_slice(), kind, region_word).unwrap();
        let place = Place {
            region,
            start: start_page(start_word, pages),
            pages,
            mapping: self.places.len() as u16 + 1,
            frame: 0,
        };
        self.used[usize::from(region)] = true;
        self.places.push_reserved(place);
        place
    }
}

/// The generator of a seed's random words, at word 0 of stream 0.
pub(crate) fn generator(seed: u64) -> ChaCha20Rng
    ensures { result ≡ of_seed (seed_bytes seed) }
{
    let mut key = [0; 32];
    LittleEndian::write_u64(&mut key, seed);
    ChaCha20Rng::from_seed(key)
}

/// An entry for each of so many regions, which says that the region isn't used.
fn none_used(alloc: Global, regions: u64) -> Result<Vec<bool>, OutOfMemory>
    ensures regions { IfOk result (λ used. vec_len used ≡ regions) }
    ensures none { IfOk result (λ used. All (λ entry. entry ≡ false) used.items) }
{
    Ok(vec![in alloc; false; regions as usize]?)
}

/// The start page that a word says, for so many pages: at least one page of the region is before them,
/// and one behind.
fn start_page(word: u32, pages: u16) -> u16
    requires { pages ≤ PART_PAGES }
    ensures { result ≡ 1 + word % (REGION_PAGES - 1 - pages) }
{
    (1 + u64::from(word) % (REGION_PAGES - 1 - u64::from(pages))) as u16
}
