//! What a session edits: a candidate, which is a commit that it is based on, and edits over that commit's map.
//!
//! Guarantees: a candidate's map is what its edits make of the base; it is modified exactly where it has edits; a
//! command that leaves the map as it was adds none; a refused one leaves the candidate as it was.
//! Leaves to others: what a change makes (`edit_ops`), what a load makes (`load_ops`), what a private commit makes
//! (`private_merge`), and whose candidate follows which commit (`config_core`).
#![tactic(auto)]

mod candidate;
mod laws;

pub use candidate::Candidate;
pub use laws::{edits_have_one_answer, edits_make_the_candidate};
