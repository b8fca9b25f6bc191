//! Shows that sessions run side by side, and the ticker beside them: a source waits for what others were answered.
//!
//! Guarantees: it is safe and ends, whatever the sessions come to.
//! Leaves to others: what a run promises (`service`), and what each session and the ticker do (`session_threads`).
#![tactic(auto)]

mod cases;
mod edges;
mod runs;

use cases::say_all;
use std::process::ExitCode;

fn main(rt: HostRuntime) -> ExitCode {
    let mut out = String::new(rt.alloc());
    if say_all(&rt, rt.alloc(), &mut out).is_err() {
        return ExitCode::from(9);
    }
    match print!(rt; "{out}") {
        Ok(()) => ExitCode::from(0),
        Err(_) => ExitCode::from(1),
    }
}
