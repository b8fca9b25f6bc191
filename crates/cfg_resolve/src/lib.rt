//! Which statement words name below a level.
//!
//! Guarantees: words are read from the left by the profile's rows, and levels are entered until the words or a statement
//! end. They name one statement, with the words of its value as they are kept, or are refused with the path of what was
//! read and the word in question.
//! Leaves to others: which statements there are (`cfg_tree`), which rows and values (`cfg_schema`, `cfg_values`), and
//! what is done to the statement that is named (`edit_ops`).
#![tactic(auto)]

mod front;
mod laws;
mod reading;
mod target;

pub use laws::{own_words_name_their_statement, words_have_one_answer};
pub use reading::resolve;
pub use target::{Target, WordsFault};
