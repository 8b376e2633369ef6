//! Runs of the symbolic machine.

ghost use Rattle.std.specs.Prelude.{◌≡◌, ◌==◌};
ghost use Rattle.ad_base.specs.declared.layout.TheConstants.{GATE};
ghost use Rattle.ad_symbolic.specs.Machine.{spent, symbolic_run, unless_at_gate};
ghost use Rattle.ad_symbolic.specs.Private.Made.{memory_in, run_of, state_of, Stays};
ghost use Rattle.ad_symbolic.specs.Private.Runs.{is_gate};

use crate::finish::{Finish, Unclear};
use crate::hart::Hart;
use crate::machine::Machine;
use crate::value::{Reason, Value};
use ad_base::{End, GATE};

/// Whether a value is the gate.
fn is_gate(at: Value) -> bool
    ensures { result ≡ is_gate at }
{
    match at {
        Value::Num(number) => number == GATE,
        Value::At(..) => false,
    }
}

impl Machine<'_> {
    /// Makes steps until the call ends or isn't clear, at most `fuel` of them. The gate is looked for before each step,
    /// and once more when the fuel is spent.
    pub fn run(&mut self, hart: &mut Hart, fuel: u64) -> Result<Finish, Unclear>
        ensures made { symbolic_run fuel 0 (state_of hart.old) (memory_in self.old) ≡ run_of result (memory_in self.new) }
        ensures stays { Stays self.old self.new }
    {
        for made in 0..fuel {
            if is_gate(hart.pc) {
                return Ok(Finish::Returns(hart.first_argument()));
            }
            match self.step(hart) {
                Ok(None) => {}
                Ok(Some(finish)) => return Ok(finish),
                Err(reason) => return Err(Unclear { reason, step: made }),
            }
        }
        self.stop(hart, fuel)
    }

    /// How a run ends whose fuel is spent, after so many steps.
    fn stop(&self, hart: &Hart, made: u64) -> Result<Finish, Unclear>
        ensures { unless_at_gate (state_of hart.now) (memory_in self.now) (spent made (state_of hart.now) (memory_in self.now))
            ≡ run_of result (memory_in self.now) }
    {
        if is_gate(hart.pc) {
            return Ok(Finish::Returns(hart.first_argument()));
        }
        match hart.pc {
            Value::Num(_) => Ok(Finish::Ends(End::Fuel)),
            Value::At(..) => match self.memory.fetch(hart.pc) {
                Ok(_) => Ok(Finish::Ends(End::Fuel)),
                Err(_) => Err(Unclear {
                    reason: Reason::Address,
                    step: made,
                }),
            },
        }
    }
}
