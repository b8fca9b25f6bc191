//! What a curly text says: its grammar, and the reader of such texts.
//!
//! Guarantees: a text that the grammar derives is read as the statements that it says; any other has its
//! leftmost fault, whose place the grammar determines; each text has one reading or one fault.
//! Leaves to others: the tokens (`cfg_lex`), how statements are printed (`curly_print`), and what a load
//! makes of them.
#![tactic(auto)]

mod effect;
mod end;
mod fault;
mod laws;
mod level;
mod marked;
mod marks;
mod names;
mod phase;
mod reader;
mod reading;
mod steps;
mod stop;
mod taking;

pub use fault::TextFault;
pub use laws::{texts_say_one_thing, unknown_words_begin_steps};
pub use level::Level;
pub use marked::{Marked, Paths};
pub use reading::{parse, parse_beside};
