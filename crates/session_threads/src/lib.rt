//! Sessions on threads: each session of a run on a thread of its own, over one database, one turn at a time, and the
//! ticker beside them.
//!
//! Guarantees: what happened is one legal history, of which each session knows its part as if it were served alone
//! (specs/Served.antt); a deadline is looked at whenever the ticker's beat calls for it (specs/Looks.antt).
//! Leaves to others: what the database does in a turn (`config_db`), what a session is (`session_shell`), and how turns
//! are taken (`turn_lock`).
#![tactic(auto)]

mod asking;
mod begun;
mod deeds;
mod found;
mod gate;
mod noted;
mod seat;
mod served;
mod threads;
mod ticking;
mod waking;
mod whole;

pub use ticking::Ticker;
pub use waking::Waker;
pub use whole::{Room, Sessions, make_room, serve_all};
