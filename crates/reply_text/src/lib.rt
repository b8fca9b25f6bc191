//! The text of each reply, each refusal, each denial and each fault of a line, of what is known of a backup, and how it is written.
//!
//! Guarantees: what is written of a reply is its text (specs/Texts.antt), piece by piece and without memory; a text is cut
//! short only where the sink's count of faults rose.
//! Leaves to others: when a text is written (`service`), and what a show prints (`curly_print`, `set_text`).
#![tactic(auto)]

mod denial;
mod fault;
mod json;
mod refusal;
mod reply;
mod synced;
mod writing;

pub use denial::{put_denied, put_unready};
pub use fault::ShellFault;
pub use reply::{put_fault, put_no_memory, put_reply};
pub use synced::put_synced;
