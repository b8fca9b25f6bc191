//! The ends of a run that are the system's: files as disks, the files of sessions, standard input and output, the clock's
//! pace, and the run over them.
//!
//! Guarantees: words are judged before anything is made for a session; there is one end for each user that they name, in
//! order, and it is that user's; the status is that of the service.
//! Leaves to others: what words ask (`command_line`), the service (`service`), and the words and the exit status of a
//! program (`confd`). That terminals, files and clocks behave as their adapters say is trusted.
#![tactic(auto)]

mod claim;
mod disks;
mod edges;
mod pace;
mod serving;
mod telling;

pub use disks::{make_disks, no_disks, open_disks};
pub use edges::{Input, Output, StdEnd, ends_of};
pub use serving::{not_run, run_over, serve};
pub use telling::{Came, line_of};
