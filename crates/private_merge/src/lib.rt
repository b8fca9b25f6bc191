//! What a private commit makes of three configurations: the one that a private candidate began with, the active one,
//! and the candidate's own.
//!
//! Guarantees: each path has the value that the candidate gave it, or else the active one; nothing is merged where both
//! sides changed a path in two ways, or where a statement would stand without its parent: then the least such path is
//! reported; what is merged is a configuration, of no more statements than one may have.
//! Leaves to others: what a candidate is (`candidate`), and who may commit when (`config_core`).
#![tactic(auto)]

mod fault;
mod laws;
mod merging;
mod place;
mod side;
mod sides;
mod values;

pub use fault::MergeFault;
pub use laws::{
    merges_are_configurations, merges_have_one_answer, one_side_alone_is_taken,
    values_come_from_a_side,
};
pub use merging::merge;
