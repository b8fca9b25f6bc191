//! Runs the program's edge over real files: the files of a journal, those of sessions, and files that fail.
//!
//! Guarantees: it is safe and ends, whatever the files do.
//! Leaves to others: which files words name and what is said of a run (`real_ends`), and what a run promises (`service`).
#![tactic(auto)]

mod cases;
mod failing;
mod files;
mod runs;

use cases::say_all;
use std::io;

fn main(rt: HostRuntime) -> io::Result<()> {
    say_all(&rt, (rt.stdin(), rt.stdout()))
}
