//! What follows for a run with threads.

ghost use Rattle.std.specs.Prelude.{◌≡◌, ℕ, List, [], ◌∷◌, map};
ghost use Rattle.ad_base.specs.declared.image.Image.{Image};
ghost use Rattle.ad_base.specs.Book.{Contents};
ghost use Rattle.ad_call.specs.Call.{HasData};
ghost use Rattle.ad_core.specs.Turn.{IsLawful};
ghost use Rattle.ad_lines.specs.Sound.{Lines, Outcome};
ghost use Rattle.ad_maps.specs.declared.shape.Opening.{Opening};
ghost use Rattle.ad_maps.specs.Rows.{ClosedSeen};
ghost use Rattle.ad_run.specs.Asked.{CallsAskForAll};
ghost use Rattle.ad_run.specs.Beside.{IsRunBeside};
ghost use Rattle.ad_run.specs.Ended.{IsToRun};
ghost use Rattle.ad_run.specs.Opened.{opening_in_frames, shape_for};
ghost use Rattle.ad_run.specs.Stale.{AreTrappedElsewhere, FindNothingElsewhere, HaveOwnAddresses};
ghost use Rattle.ad_run.specs.Worked.{first_fixed, no_lines, opened, place_of, second_fixed};
ghost use Rattle.ad_script.specs.declared.script.Step.{Step};

use ad_base::Kind;

/// No two rows' places have an address in common. So whoever kept an address of a mapping that a call doesn't run on, as of one
/// that was unmapped, holds nothing. In the memory of the call nothing lies there, whatever bytes its stack and its data
/// hold, and at each of its steps each aligned fetch, load and store there is a fault. A call that fetches, loads or stores there
/// ends at that step, in a fault, or where it isn't aligned in misaligned: so each entry tells whose call did. So it is in each
/// book of a run with threads.
pub fn law_stale_addresses()
    ensures apart { (slots frames : ℕ) (l : Lines) (script : List Step) (o : Outcome) (closed : ClosedSeen)
        → IsToRun frames l script → IsRunBeside slots frames l script o closed → HaveOwnAddresses o }
    ensures nothing { (slots frames : ℕ) (l : Lines) (script : List Step) (o : Outcome) (closed : ClosedSeen)
        → IsToRun frames l script → IsRunBeside slots frames l script o closed → FindNothingElsewhere l o }
    ensures turns { (slots frames : ℕ) (l : Lines) (script : List Step) (o : Outcome) (closed : ClosedSeen)
        → IsToRun frames l script → IsRunBeside slots frames l script o closed → AreTrappedElsewhere l o }
{}

/// What the list of a worker has asked in each of its calls has each page of the movable part that the call touches, and each
/// local word that it loads. A lawful book has as much data as its image.
pub fn law_calls_ask_for_all()
    ensures asked { (slots frames : ℕ) (l : Lines) (script : List Step) (o : Outcome) (closed : ClosedSeen)
        → IsToRun frames l script → IsRunBeside slots frames l script o closed → CallsAskForAll l o }
    ensures data { (i : Image) (fuel : ℕ) (b : Contents) → IsLawful i fuel b → HasData i b.writable b.fixed }
{}

/// What a run of one worker on two modules begins with, at seed 0, where each module has three frames: in order of number the
/// worker's stack, and of each module its immovable part, and its movable one in the first of its module's frames. Their places
/// are those that the first ten words of ChaCha with a key of zeros say.
pub fn law_worked_opening()
    ensures mappings { opening_in_frames 3 no_lines ≡ opened Kind.Stack 0 (place_of 1 47222 24 4 0)
        ∷ opened Kind.Fixed 0 first_fixed ∷ opened Kind.Code 0 (place_of 3 13105 43 4 0)
        ∷ opened Kind.Fixed 1 second_fixed ∷ opened Kind.Code 1 (place_of 5 13128 39 4 3) ∷ [] }
    ensures modules { map (λ (m : Opening). m.place) (shape_for 8 3 no_lines).modules ≡ place_of 3 13105 43 4 0 ∷ place_of 5 13128 39 4 3 ∷ [] }
{}
