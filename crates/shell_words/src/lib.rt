//! From a line to a command: what a session's line asks, or the place where it isn't a command.
//!
//! Guarantees: a line asks the one thing that its form makes of it in that mode, a sound command or a load of the text
//! after it, or is a syntax error at its first token with which no form goes on (specs/Form.antt, specs/Made.antt,
//! specs/Reading.antt); a line without tokens asks nothing.
//! Leaves to others: how input is cut into lines (`io_edge`), the tokens of a line (`cfg_lex`), and what a command
//! does (`config_core`).
#![tactic(auto)]

mod form;
mod item;
mod keyword;
mod laws;
mod making;
mod number;
mod pair;
mod reader;
mod time;
mod walk;

pub use laws::{
    lines_are_read_in_one_way, lines_ask_sound_commands, lines_ask_what_their_examples_show,
};
pub use making::Words0;
pub use reader::{ReadFault, read_line};
