//! The words of the program's command line, read by clap.
//!
//! Guarantees: words that ask something ask one thing, which is what they are read as; words are refused exactly where they
//! ask nothing.
//! Leaves to others: what a mode does (`service`), and the words themselves, of at most 255 bytes each (`confd`).
#![tactic(auto)]

mod asked;
mod command;
mod given;
mod laws;
mod reading;
mod sessions;
mod usage;

pub use asked::{Asked, RunMode};
pub use laws::{
    a_flag_asks_for_rights, a_place_is_served_for_root, limits_are_stated, words_ask_one_thing,
};
pub use reading::read_words;
pub use sessions::MAX_SESSIONS;
pub use usage::Usage;
