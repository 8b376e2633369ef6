//! What replay says of lists of calls. Each function makes no call: its contract is the law.

ghost use Rattle.std.specs.Prelude.{◌≡◌, ◌+◌, ◌%◌, ◌^◌, ◌≤◌, ◌↔◌, ℕ, List, [], ◌∷◌, ◌++◌, Some, IsFalse, length, take, slice_get};
ghost use Rattle.std.specs.List.{Any, AllPass, count_by};
ghost use Rattle.ad_base.specs.Book.{Contents};
ghost use Rattle.ad_base.specs.declared.image.Image.{Image};
ghost use Rattle.ad_base.specs.declared.place.Place.{Place};
ghost use Rattle.ad_symbolic.specs.Examples.{asked_for_sum, asked_to_count, asked_to_note, asked_to_send, counting_image};
ghost use Rattle.ad_symbolic.specs.Replay.{Answer, Asked, Clear, Lost, answer_of, clear_calls, is_clear, kept_of, replay, run_of};

use ad_base::End;

/// There is one answer for each call. An answer is `Lost` exactly where one before it isn't clear. The clear history is
/// the longest prefix of the calls whose answers are all clear; it has as many calls as there are clear answers, so those
/// are the ones before the first that isn't clear, and no others.
pub fn law_lost()
    ensures each { (image : Image) (fuel : ℕ) (calls : List Asked)
        → length (replay image fuel calls) ≡ length calls }
    ensures lost { (image : Image) (fuel : ℕ) (calls : List Asked) (k : ℕ) (answer : Answer)
        → slice_get (replay image fuel calls) k ≡ Some answer
        → (answer ≡ Lost) ↔ Any (λ before. IsFalse (is_clear before)) (take k (replay image fuel calls)) }
    ensures clear_history { (image : Image) (fuel : ℕ) (calls : List Asked) (n : ℕ)
        → n ≤ length calls
        → AllPass is_clear (take n (replay image fuel calls)) ↔ (n ≤ clear_calls (replay image fuel calls)) }
    ensures clear_answers { (image : Image) (fuel : ℕ) (calls : List Asked)
        → clear_calls (replay image fuel calls) ≡ count_by is_clear (replay image fuel calls) }
{}

/// What a clear call is told doesn't depend on what clear calls before it left. A call whose answer is the same whatever
/// numbers its module keeps has that answer behind every clear history. So has a sum of two arguments, in a module whose
/// other calls make notes, send words to the device queue and change data: behind some of these calls, and behind all
/// that are clear. And a counter in data goes on where the call before it stopped.
pub fn law_worked_histories()
    ensures behind_clear { (image : Image) (fuel : ℕ) (call : Asked) (answer : Answer)
        → ((book : Contents) → answer_of (run_of image fuel (kept_of book) call) ≡ answer)
        → (before : List Asked) → AllPass is_clear (replay image fuel before)
        → replay image fuel (before ++ call ∷ []) ≡ replay image fuel before ++ answer ∷ [] }
    ensures sum_behind_clear { (fixed : Place) (a b : ℕ) (before : List Asked)
        → AllPass is_clear (replay (counting_image fixed) 100 before)
        → replay (counting_image fixed) 100 (before ++ asked_for_sum a b ∷ [])
        ≡ replay (counting_image fixed) 100 before ++ Clear (End.Returned ((a + b) % 2 ^ 64)) [] ∷ [] }
    ensures sum_behind_others { (fixed : Place)
        → replay (counting_image fixed) 100 (asked_to_note 7 ∷ asked_to_send 9 ∷ asked_to_count 5 ∷ asked_for_sum 2 3 ∷ [])
        ≡ Clear (End.Returned 7) (7 ∷ []) ∷ Clear (End.Returned 1) [] ∷ Clear (End.Returned 5) [] ∷ Clear (End.Returned 5) [] ∷ [] }
    ensures counter { (fixed : Place)
        → replay (counting_image fixed) 100 (asked_to_count 5 ∷ asked_to_count 2 ∷ asked_to_count 5 ∷ [])
        ≡ Clear (End.Returned 5) [] ∷ Clear (End.Returned 7) [] ∷ Clear (End.Returned 12) [] ∷ [] }
{}
