//! The statements of a configuration: a finite map from paths to values.
//!
//! Guarantees: each statement's parent is there, each path follows the profile's rows with names of their
//! kinds, each statement has the words of its row, and a value's order lists exactly the children of
//! the ordered row; at most 16384 statements stand.
//! Leaves to others: which statement words name (`cfg_resolve`), which changes a command makes (`edit_ops`), and how
//! statements are printed (`curly_text`, `set_text`).
#![tactic(auto)]

mod after;
mod below;
mod change;
mod children;
mod draft;
mod excess;
mod fault;
mod first_profile;
mod full;
mod gather;
mod laws;
mod ledger_check;
mod limit;
mod moving;
mod naming;
mod pending;
mod relaid;
mod reorder;
mod sharing;
mod steps;
mod store;
mod tree;
mod typed;
mod walk;

pub use draft::{Draft, two_maps_have_one_union};
pub use excess::statement_past_limit;
pub use fault::TreeFault;
pub use first_profile::{FIRST_ROWS, PERMISSIONS};
pub use full::{Full, FullMaker, FullWalk, Given};
pub use gather::GatherFault;
pub use laws::{
    limits_are_stated, moves_are_told_by_look_ups, one_path_is_past_the_limit,
    puts_have_one_answer, statements_make_a_tree, walks_gather_their_tree,
};
pub use ledger_check::LedgerCheck;
pub use limit::{MAX_EXPANDED, MAX_STATEMENTS};
pub use moving::CopyFault;
pub use reorder::is_ordered;
pub use steps::Steps;
pub use tree::Tree;
pub use typed::is_open_kind;
pub use walk::Walk;
