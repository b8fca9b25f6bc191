//! One session over any door: it reads its lines, asks its commands, and writes each answer before the next line is read.
//!
//! Guarantees: a session is what its source's bytes say: items, turns, texts, moments and how it ended
//! (specs/Transcript.antt), over whatever answers its commands; what a door gave is what it names, and a session has one
//! text (src/laws.rt). In order of reading: src/door.rt, specs/Shows.antt, specs/Exchange.antt, specs/Items.antt,
//! specs/Cut.antt, specs/Transcript.antt.
//! Leaves to others: what a line asks (`shell_words`), what the texts are (`reply_text`), the ends (`io_edge`), and what
//! answers the commands (`session_threads`).
#![tactic(auto)]

mod answer;
mod door;
mod end;
mod json_load;
mod json_show;
mod laws;
mod reading;
mod serving;
mod session;
mod synchronizing;
mod turn;

pub use door::{Door, Given0, SyncedTurn};
pub use end::{End, Ended, NoSession};
pub use json_show::Manner;
pub use laws::{replies_are_named, sessions_have_one_text};
pub use reading::{Item, Reading, TEXT_LIMIT, limits_are_stated};
pub use session::Session;
pub use turn::{How, Turn, TurnList};
