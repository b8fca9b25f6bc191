//! What happened in a run: the events as the machine took them, one by one.
//!
//! Guarantees: a history has one outcome, goes on in one way, and keeps the active configuration accepted (src/laws.rt). Else it
//! holds the types and the definitions that a run is stated in (specs/Events.antt).
//! Leaves to others: that they hold of a run (`service`).
#![tactic(auto)]

mod history;
mod laws;

pub use history::{Happened, History};
pub use laws::{histories_go_on_in_one_way, histories_have_one_outcome, histories_stay_accepted};
