//! How statements are printed as curly text.
//!
//! Guarantees: `print` gives the text of the statements below a path, in printing order (specs/Printed.antt), and
//! `print_inherited` that of an expansion, which says of each inherited statement from which group it comes
//! (specs/Inherited.antt). What inherits nothing and has no marks is printed alike by both. `text_len` reports how long the
//! whole text is, and `is_surely_within`, where the words' lengths tell it, that it is within a limit; both without memory.
//! Leaves to others: how a word is printed (`cfg_lex`), what a text says (`curly_grammar`), and that what is printed is read
//! as what was printed (`curly_text`).
#![tactic(auto)]

mod entries;
mod inherited;
mod laws;
mod lengths;
mod line;
mod note;
mod printer;
mod printing;
mod tree_printer;

pub use inherited::print_inherited;
pub use laws::own_statements_are_printed_alike;
pub use lengths::{is_surely_within, text_len};
pub use printing::print;
