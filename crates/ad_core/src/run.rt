//! Calls.

ghost use Rattle.std.specs.Prelude.{◌≡◌, ◌≢◌, ◌%◌, fold, IfNone};
ghost use Rattle.ad_core.specs.Plain.{plain_call, plain_run, untouched};
ghost use Rattle.ad_core.specs.Private.Code.{state_of, RunsTo};

use crate::bus::Bus;
use crate::hart::Hart;
use crate::step::step;
use ad_base::{Args, End, FETCH_BYTES, GATE};

/// Runs a call of the entry at an address, with these arguments in a0 and the registers behind it,
/// the end of its stack in sp, and at most `fuel` steps. It gives how the call ended, and leaves
/// what the call made of the memory in the bus.
pub fn call<B: Bus>(bus: &mut B, entry: u64, args: &Args, sp: u64, fuel: u64) -> End
    ensures end { result ≡ (plain_call fuel entry args.now sp (B.memory bus.old)).end }
    ensures memory { B.memory bus.new ≡ (plain_call fuel entry args.now sp (B.memory bus.old)).memory }
    ensures track { B.track bus.new
        ≡ fold B.rule (B.track bus.old) (plain_call fuel entry args.now sp (B.memory bus.old)).accesses }
{
    begin(bus, entry, args, sp, fuel)
}

/// Begins a call and runs it. Its contract says as one fact what `call` says in several.
#[tactic(auto, unfolding(crate::specs::Plain::plain_call))]
fn begin<B: Bus>(bus: &mut B, entry: u64, args: &Args, sp: u64, fuel: u64) -> End
    ensures { RunsTo B.rule (B.track bus.old) result (B.memory bus.new) (B.track bus.new)
        (plain_call fuel entry args.now sp (B.memory bus.old)) }
{
    if entry % FETCH_BYTES != 0 {
        return End::Misaligned;
    }
    let mut hart = Hart::start(entry, args, sp);
    run(bus, &mut hart, fuel)
}

/// Makes steps until the call ends, at most `fuel` of them. The gate is looked for before each
/// step, and once more when the fuel is spent.
fn run<B: Bus>(bus: &mut B, hart: &mut Hart, fuel: u64) -> End
    requires { hart.old.pc % FETCH_BYTES ≡ 0 }
    ensures { RunsTo B.rule (B.track bus.old) result (B.memory bus.new) (B.track bus.new)
        (plain_run fuel (state_of hart.old) (untouched (B.memory bus.old))) }
{
    for _ in 0..fuel {
        if hart.pc == GATE {
            return End::Returned(hart.first_argument());
        }
        if let Some(end) = step(bus, hart) {
            return end;
        }
    }
    if hart.pc == GATE {
        End::Returned(hart.first_argument())
    } else {
        End::Fuel
    }
}
