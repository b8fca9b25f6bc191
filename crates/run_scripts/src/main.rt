//! Answers scripts of steps of one machine and of runs of the service, and compares what comes with what each script expects.
//!
//! Guarantees: it is safe and ends, whatever a script has. docs/SCRIPTS.md has the form of a script.
//! Leaves to others: what the calls answer, each in its crate, and how a script is read and compared (`script_lines`).
#![tactic(auto)]

use script::Whole;
use script_lines::check_files;
use std::process::ExitCode;

mod asking;
mod command_calls;
mod disks;
mod histories;
mod input_calls;
mod line_calls;
mod replies;
mod runs;
mod script;
mod steps;

fn main(rt: HostRuntime) -> ExitCode {
    check_files::<HostRuntime, Whole>(&rt)
}
