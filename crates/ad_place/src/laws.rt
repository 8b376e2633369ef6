//! Laws of the choice of places. Each function makes no call: its contract is the law.

ghost use Rattle.std.specs.Prelude.{◌≡◌, ◌≢◌, ℕ, ◌+◌, ◌*◌, ◌<◌, ◌≤◌, All, List, [], ◌∷◌, ◌++◌, length, slice_get, Some, IsSomeAnd, AllPairs};
ghost use Rattle.ad_base.specs.declared.ledger.Kind.{Kind};
ghost use Rattle.ad_place.specs.Choice.{candidate, next_place, places_of, random_word, Drawn};
ghost use Rattle.ad_place.specs.ChoiceLaws.{IsFirstUnused, IsPlaceFor, MayBeDrawn};

use ad_base::{MAPPINGS, PART_PAGES};

/// Of each seed and each list of kinds and pages that may be drawn: there is one place for each request,
/// in a region of its kind, of its pages, and numbered from 1 in turn, and no two places have one
/// region. A place's region is the first of the kind's, from the one that the random word says on,
/// cyclically, that no earlier place has; there always is one.
pub fn law_places()
    ensures count { (seed : ℕ) (requests : List (Kind × ℕ)) → length (places_of seed requests) ≡ length requests }
    ensures each { (seed : ℕ) (requests : List (Kind × ℕ)) → MayBeDrawn requests
        → (k : ℕ) (request : Kind × ℕ) → slice_get requests k ≡ Some request
        → IsSomeAnd (slice_get (places_of seed requests) k) (IsPlaceFor request.0 request.1 (k + 1)) }
    ensures differ { (seed : ℕ) (requests : List (Kind × ℕ)) → MayBeDrawn requests
        → AllPairs (λ p q. p.region ≢ q.region) (places_of seed requests) }
    ensures choice { (d : Drawn) (kind : Kind) (pages : ℕ) → length d.places < MAPPINGS
        → let word = random_word d.seed (2 * length d.places) in
        (i : ℕ) × IsFirstUnused d.places kind word i × ((next_place d kind pages).region ≡ candidate kind word i) }
{}

/// One request more draws one place more, and leaves the places before it as they are.
pub fn law_appending()
    ensures { (seed : ℕ) (requests : List (Kind × ℕ)) (kind : Kind) (pages : ℕ)
        → places_of seed (requests ++ (kind, pages) ∷ [])
        ≡ places_of seed requests ++ next_place (record { seed = seed; places = places_of seed requests }) kind pages ∷ [] }
{}

/// The next place is one of its kind's regions and of its pages, numbered one more than the last, and no
/// earlier place has its region.
pub fn law_next()
    ensures place { (d : Drawn) (kind : Kind) (pages : ℕ) → length d.places < MAPPINGS → 1 ≤ pages → pages ≤ PART_PAGES
        → IsPlaceFor kind pages (length d.places + 1) (next_place d kind pages) }
    ensures fresh { (d : Drawn) (kind : Kind) (pages : ℕ) → length d.places < MAPPINGS
        → All (λ p. p.region ≢ (next_place d kind pages).region) d.places }
{}
