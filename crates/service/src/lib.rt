//! The configuration service: its top call, which serves the sessions of its ends over the list of commits on two disks.
//!
//! Guarantees: `run` serves its sessions as the machine of one event at a time would, keeps what they commit on the disks,
//! through a crash at any moment, and hands everything back (specs/Serving.antt).
//! Leaves to others: what the words ask (`command_line`), what the machine does (`config_core`), how its entries are
//! kept (`config_db`), what a session is (`session_shell`), how sessions and ticker run side by side
//! (`session_threads`), what a history says (`session_history`), and the program round it (`confd`).
#![tactic(auto)]

mod alone;
mod closed;
mod generating;
mod laws;
mod serving;
mod taking;

pub use closed::Closed;
pub use laws::{fronts_tell_what_was_kept, generated_texts_are_one, sessions_have_one_text};
pub use modes::StartWhy0;
pub use serving::{run, run_keeping};
pub use session_threads::{Ticker, Waker};
