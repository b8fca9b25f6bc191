//! What a session asks: commands, changes of the candidate, and the words that changes are written with.
//!
//! Guarantees: each kind of change that is written as a keyword with words after it, or with words, a mark and words, has
//! one keyword, one mark, and one reading of these words; a time means one moment, where it is asked at a moment.
//! Leaves to others: which lines ask what (`shell_words`, `set_text`), and what a command does (`config_core`).
#![tactic(auto)]

mod command;
mod mover;
mod verb;
mod when;

pub use command::{Command, Form, LoadWay, Mode, Op};
pub use mover::Mover;
pub use verb::Verb;
pub use when::When;
