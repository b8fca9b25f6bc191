//! Answers scripts of several callers' steps on one database, of what a crash at any call of its disks leaves, and of its opening
//! anew, and compares what comes with what each script expects.
//!
//! Guarantees: it is safe and ends, whatever a script has. docs/SCRIPTS.md has the form of a script.
//! Leaves to others: what the calls answer (`config_db`), and how a script is read and compared (`script_lines`).
#![tactic(auto)]

use script::Whole;
use script_lines::check_files;
use std::process::ExitCode;

mod book;
mod disks;
mod holding;
mod images;
mod reading;
mod resting;
mod running;
mod script;

fn main(rt: HostRuntime) -> ExitCode {
    check_files::<HostRuntime, Whole>(&rt)
}
