//! Whole configurations that come in at once: load merge, load override, load replace, and load set.
//!
//! Guarantees: a load is all that its text says or nothing: the statements after it are those that the way of loading
//! makes of the old ones and of the text, and of several causes of refusal the first is reported; nothing at or below a
//! protected statement changes, but by a line that takes the mark away.
//! Leaves to others: what a text says (`curly_grammar`, `set_text`), what one line changes (`edit_ops`), and what a
//! candidate is (`config_core`).
#![tactic(auto)]

mod blocked;
mod fault;
mod laws;
mod left;
mod lines;
mod loading;
mod same;
mod tags;
mod texts;

pub use fault::LoadFault;
pub use laws::{loads_have_one_answer, replaced_statements_go};
pub use loading::load;
