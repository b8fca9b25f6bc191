//! Changes of a configuration: set, delete, the marks, rename, copy and insert.
//!
//! Guarantees: a change is exactly the one that its words ask for, or the statements stay as they are and the
//! first cause is reported; a statement that is protected, and all below it, stays as it is.
//! Leaves to others: what a candidate is (`config_core`), and how a line becomes a change (`shell_words`).
#![tactic(auto)]

mod applying;
mod asked;
mod delete;
mod fault;
mod guard;
mod insert;
mod laws;
mod mark;
mod moves;
mod set;
mod subject;
mod words;

pub use applying::apply;
pub use fault::EditFault;
pub use laws::changes_have_one_answer;
pub use subject::Subject;
