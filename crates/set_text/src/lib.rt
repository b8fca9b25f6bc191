//! The lines that make statements, and the changes that lines ask for.
//!
//! Guarantees: statements are printed in printing order, first their `set` lines and then those of their marks; a
//! text of lines has one list of changes, or its first line of no form with the place that doesn't fit.
//! Leaves to others: what a change does (`edit_ops`), how one word is printed and read (`cfg_lex`), and that the
//! lines of a configuration make it (`set_laws`).
#![tactic(auto)]

mod fault;
mod fit;
mod form;
mod groups;
mod laws;
mod line;
mod lines;
mod op_lines;
mod phase;
mod printing;
mod reading;
mod stop;
mod trail;

pub use fault::LineFault;
pub use laws::{
    lines_ask_what_their_examples_show, printed_lines_are_read_back, texts_have_one_answer,
};
pub use lines::parse_lines;
pub use op_lines::{OpLine, OpLines};
pub use printing::print_lines;
