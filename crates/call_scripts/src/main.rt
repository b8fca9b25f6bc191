//! Answers scripts of calls that have all that they are asked about in their words or in the trees, the text and the records
//! that a script keeps, and compares what comes with what each script expects.
//!
//! Guarantees: it is safe and ends, whatever a script has. docs/SCRIPTS.md has the form of a script.
//! Leaves to others: what the calls answer, each in its crate, and how a script is read and compared (`script_lines`).
#![tactic(auto)]

use script::Whole;
use script_lines::check_files;
use std::process::ExitCode;

mod access_calls;
mod base_calls;
mod changes;
mod check_calls;
mod followed;
mod group_calls;
mod json_calls;
mod kept;
mod kinds;
mod ledger_calls;
mod level;
mod load_calls;
mod profile_calls;
mod puts;
mod record_calls;
mod script;
mod text_calls;
mod trees;
mod value_calls;

fn main(rt: HostRuntime) -> ExitCode {
    check_files::<HostRuntime, Whole>(&rt)
}
