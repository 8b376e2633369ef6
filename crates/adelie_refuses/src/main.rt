//! The program once more, run by the gate on a script that it refuses: the status tells it, and nothing is printed on
//! standard output.
#![tactic(auto)]

use std::process::ExitCode;

fn main(rt: HostRuntime) -> ExitCode {
    ad_command::run_process(&rt)
}
