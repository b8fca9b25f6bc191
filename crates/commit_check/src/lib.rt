//! What a configuration must meet before it may become active.
//!
//! Guarantees: `check` gives the expansion of a configuration that all rules accept, and else the least fault, by the number
//! of its rule and then by its path.
//! Leaves to others: what groups bring (`group_expand`), and when a configuration is checked (`config_core`).
#![tactic(auto)]

mod breach;
mod checking;
mod fault;
mod filters;
mod groups;
mod interfaces;
mod judge;
mod kinds;
mod laws;
mod least;
mod lookup;
mod name;
mod network;
mod peers;
mod policies;
mod repeat;
mod routes;
mod rule;
mod size;
mod under;
mod unit;
mod users;

pub use checking::{check, check_after};
pub use fault::CheckFault;
pub use judge::Judge;
pub use laws::{
    accepted_configurations_fit, checks_have_one_answer, limit_is_stated, nothing_is_accepted,
    rows_have_their_words,
};
pub use network::stray_bits_are_told;
pub use repeat::{groups_are_told_by_their_text, numbers_are_told_by_their_text};
pub use unit::names_of_units_are_cut;
