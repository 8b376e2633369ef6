//! Adelie: runs driver modules while it moves them.
#![tactic(auto)]

use std::process::ExitCode;

fn main(rt: HostRuntime) -> ExitCode {
    ad_command::run_process(&rt)
}
