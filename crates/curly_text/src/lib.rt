//! Curly text both ways: what is printed of a configuration is read as that configuration.
//!
//! Guarantees: the whole printed text of a configuration reads as that configuration, with nothing tagged.
//! Leaves to others: how statements are printed (`curly_print`), what a text says (`curly_grammar`), and the tokens
//! (`cfg_lex`).
#![tactic(auto)]

mod laws;

pub use laws::printed_text_is_read_back;
