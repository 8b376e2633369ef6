//! Laws of related states. Each function makes no call: its contract is the law.

ghost use Rattle.std.specs.Prelude.{◌≡◌, ℕ, ◌+◌, ◌*◌, ◌%◌, ◌^◌, ◌<◌, bit_and, Bool, List, ◌++◌, true, Result, Ok};
ghost use Rattle.ad_base.specs.declared.end.End.{End};
ghost use Rattle.ad_base.specs.declared.image.Image.{Image};
ghost use Rattle.ad_base.specs.Place.{base_of};
ghost use Rattle.ad_base.specs.Book.{Contents};
ghost use Rattle.ad_base.specs.Image.{IsWhole};
ghost use Rattle.ad_core.specs.Plain as machine;
ghost use Rattle.ad_core.specs.Turn.{IsLawful, plain};
ghost use Rattle.ad_base.specs.Segments.{Access};
ghost use Rattle.ad_core.specs.Memory.{fetched, loaded, stored};
ghost use Rattle.ad_isa.specs.Numbers.{minus, test_of};
ghost use Rattle.ad_isa.specs.Step.{Found, Goes, Next, State};
ghost use Rattle.ad_isa.specs.Words.{IsSize};
ghost use Rattle.ad_isa.specs.declared.instr.Test.{Test};
ghost use Rattle.ad_symbolic.specs.AddressSpace.{AddressSpace, fetched_value, loaded_value, part_bytes, stored_value};
ghost use Rattle.ad_symbolic.specs.Machine as symbolic;
ghost use Rattle.ad_symbolic.specs.Replay.{Asked, clear_calls, keeps_none, kept_of, run_of};
ghost use Rattle.ad_symbolic.specs.Value.{conjunction_of, difference_of, holds_of, offset_of, other_of, sum_of};
ghost use Rattle.ad_symbolic.specs.declared.value.Value.{Value};
ghost use Rattle.ad_relate.specs.Machines.{Agrees, IsReady, StandsFor, found_at, left_at, memory_at, next_at, state_at, tracked_at};
ghost use Rattle.ad_relate.specs.Stands.{number_at, segments_at, DataFits, Fits, IsApart, Places};
ghost use Rattle.ad_relate.specs.ClearHistory.{AreOffsets, ArePlacedApart, RepliesAsReplayed, answers_of};
ghost use Rattle.ad_relate.specs.Examples.{sum_book, sum_image};

use ad_base::{FETCH_BYTES, PAGE_BYTES, STACK_PAGES};

/// A clear operation stands for that of numbers: a sum, a difference, a conjunction, any other operation and a comparison,
/// the last for addresses in bounds wherever their parts lie. And an offset is a multiple of the bytes of an access where
/// the address is.
pub fn law_values()
    ensures sum { (ps : Places) (a b v : Value) → sum_of a b ≡ Ok v
        → number_at ps v ≡ (number_at ps a + number_at ps b) % 2 ^ 64 }
    ensures difference { (ps : Places) (a b v : Value) → difference_of a b ≡ Ok v
        → number_at ps v ≡ minus (number_at ps a) (number_at ps b) }
    ensures conjunction { (ps : Places) (a b v : Value) → conjunction_of a b ≡ Ok v
        → number_at ps v ≡ bit_and (number_at ps a) (number_at ps b) }
    ensures other { (ps : Places) (f : ℕ → ℕ → ℕ) (a b v : Value) → other_of f a b ≡ Ok v
        → number_at ps v ≡ f (number_at ps a) (number_at ps b) }
    ensures comparison { (i : Image) (ps : Places) → IsApart i ps
        → (test : Test) (a b : Value) (holds : Bool) → holds_of (part_bytes i) test a b ≡ Ok holds
        → holds ≡ test_of test (number_at ps a) (number_at ps b) }
    ensures alignment { (ps : Places) (size : ℕ) (v : Value) → IsSize size
        → number_at ps v % size ≡ offset_of v % size }
{}

/// Where it is clear what the symbolic machine finds at a value, the plain machine finds the same at the number of the
/// value, wherever the movable part and the stack lie. A fetch, where the value is a number, or an address at an offset,
/// below 2^64 that may be fetched at: the same word, the same service, or the same end. A load: the number of the value, or
/// the same end. A store: the segments that those stand for which are left, or the same end.
pub fn law_memories()
    ensures fetch { (space : AddressSpace) (ps : Places) → IsApart space.image ps → Fits space
        → (v : Value) (found : Result Found End) → offset_of v < 2 ^ 64 → offset_of v % FETCH_BYTES ≡ 0
        → fetched_value space v ≡ Ok found
        → machine.found_or_end (fetched (segments_at ps space) (number_at ps v)) ≡ found }
    ensures load { (space : AddressSpace) (ps : Places) → IsApart space.image ps → Fits space
        → (size : ℕ) (signed : Bool) (v : Value) (found : Result Value End) → IsSize size → offset_of v < 2 ^ 64
        → loaded_value size signed space v ≡ Ok found
        → machine.widened_or_end size signed (loaded size (segments_at ps space) (number_at ps v)) ≡ found_at ps found }
    ensures store { (space : AddressSpace) (ps : Places) → IsApart space.image ps → Fits space
        → (size : ℕ) (value v : Value) (left : Result AddressSpace End) → IsSize size → offset_of v < 2 ^ 64
        → stored_value size value space v ≡ Ok left
        → stored size (number_at ps value) (segments_at ps space) (number_at ps v) ≡ left_at ps left }
{}

/// A clear step stands for the plain machine's step, wherever the movable part and the stack lie, whatever
/// accesses were made before, to which it adds its own; and where it goes on, the next step is ready too.
pub fn law_step()
    ensures stands { (ps : Places) (h : State Value) (m : symbolic.Memory) (accesses : List Access) (next : Next Value symbolic.Memory)
        → IsReady ps h m → symbolic.symbolic_step h m ≡ Ok next
        → (more : List Access) × (machine.plain_step (state_at ps h) (tracked_at ps accesses m) ≡ next_at ps (accesses ++ more) next) }
    ensures ready { (ps : Places) (h after : State Value) (m memory : symbolic.Memory)
        → IsReady ps h m → symbolic.symbolic_step h m ≡ Ok (Goes after memory)
        → IsReady ps after memory }
{}

/// A clear run stands for the plain machine's run of as many steps at most, and a clear call for the
/// plain machine's call at the base of the movable part and the offset, with the end of the stack as
/// sp: it ends so, and leaves these segments, notes and words of the device queue. Since this holds for
/// each number of steps, both end at the same step.
pub fn law_run()
    ensures run { (ps : Places) (fuel made : ℕ) (accesses : List Access) (h : State Value) (m : symbolic.Memory) (o : symbolic.SymbolicOutcome)
        → IsReady ps h m → symbolic.symbolic_run fuel made h m ≡ Ok o
        → StandsFor ps o (machine.plain_run fuel (state_at ps h) (tracked_at ps accesses m)) }
    ensures call { (ps : Places) (fuel offset : ℕ) (args : List ℕ) (m : symbolic.Memory) (o : symbolic.SymbolicOutcome)
        → IsApart m.space.image ps → Fits m.space → offset < 2 ^ 64
        → symbolic.symbolic_call fuel offset args m ≡ Ok o
        → StandsFor ps o (machine.plain_call fuel ((base_of ps.movable + offset) % 2 ^ 64) args
        (base_of ps.stack + STACK_PAGES * PAGE_BYTES)
        (memory_at ps m)) }
{}

/// A clear call, which keeps no address, and the plain machine's call of the same, wherever the movable part
/// and the stack lie, have the same end, notes, data and device queue.
pub fn law_clear()
    ensures { (i : Image) (ps : Places) (fuel : ℕ) (book : Contents) (call : Asked) (o : symbolic.SymbolicOutcome)
        → IsApart i ps → DataFits i book → call.offset < 2 ^ 64
        → run_of i fuel (kept_of book) call ≡ Ok o → keeps_none o ≡ true
        → Agrees o (plain i fuel book ps.movable ps.stack call.offset call.args) }
{}

/// The calls of a lawful book that are clear reply as the symbolic machine says, which knows no place of the
/// movable part and none of the stack: each entry of the clear history has the end and the notes that replay
/// gives, whatever places the calls ran at, so long as each call's places were apart. So these replies don't
/// depend on a move.
pub fn law_clear_history()
    ensures { (i : Image) (fuel : ℕ) (book : Contents)
        → IsWhole i → IsLawful i fuel book → ArePlacedApart i book.entries → AreOffsets i
        → RepliesAsReplayed i fuel book.entries }
{}

/// A worked example: the book of two calls of a module that adds, which moved between them, is one of which the law
/// of the clear history speaks, and both calls are in its clear history.
pub fn law_worked_history()
    ensures whole { IsWhole sum_image }
    ensures lawful { IsLawful sum_image 100 sum_book }
    ensures apart { ArePlacedApart sum_image sum_book.entries }
    ensures offsets { AreOffsets sum_image }
    ensures clear { clear_calls (answers_of sum_image 100 sum_book.entries) ≡ 2 }
{}
