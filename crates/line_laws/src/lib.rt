//! A line of a loaded text of set lines asks what the same line asks in configuration mode.
//!
//! Guarantees: a line is a change of a loaded text exactly where it is that change as a command of configuration mode,
//! and is skipped exactly where it asks nothing there.
//! Leaves to others: what each line asks, which is shown line by line (`shell_words`), how a text is cut into lines
//! (`set_text`), and what a change does (`edit_ops`).
#![tactic(auto)]

mod laws;

pub use laws::loaded_lines_ask_what_typed_lines_ask;
