//! The expansion of a configuration that changes, kept from one change to the next.
//!
//! Guarantees: what is kept is the expansion of the configuration that was given last; an update is refused exactly as an
//! expansion is, and then nothing is kept.
//! Leaves to others: what an expansion is (`group_expand`), and which configurations follow one another (`config_core`).
#![tactic(auto)]

mod cached;
mod differing;
mod expanded;
mod part;
mod roots;
mod splice;
mod update;

pub use cached::Cached;
pub use expanded::Expanded;

#[cfg(test)]
mod tests;
