//! What is printed as lines is made again by them.
//!
//! Guarantees: the lines of a configuration in which no protected statement is below another one, loaded into nothing,
//! give that configuration.
//! Leaves to others: the printing and reading of lines (`set_text`), what a load of lines is (`load_ops`), and what a
//! change does (`edit_ops`).
#![tactic(auto)]

mod laws;

pub use laws::printed_lines_make_their_configuration;
