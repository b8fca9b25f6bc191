//! Inheritance from groups.
//!
//! Guarantees: the expansion of a configuration has each live statement outside `groups`, and each other path that a group
//! which is applied above it brings, with the words of the first group that does.
//! Leaves to others: what a wildcard matches (`glob_name`), and what a commit asks of an expansion.
#![tactic(auto)]

mod below;
mod cut;
mod expanding;
mod fault;
mod fitting;
mod front;
mod given;
mod groups;
mod join;
mod laws;
mod level;
mod node;
mod offer;
mod order;
mod plan;
mod row;
mod run;
mod step;
mod unaltered;

pub use expanding::{expand, expand_beside};
pub use fault::ExpandFault;
pub use laws::{
    expansion_is_of_what_is_applied, expansion_is_one, expansion_is_what_is_local_or_has_a_source,
    expansion_of_a_part_is_of_that_part, expansion_without_groups_is_the_live_part,
    limit_is_stated,
};
pub use run::is_outside;
pub use step::is_apply;
