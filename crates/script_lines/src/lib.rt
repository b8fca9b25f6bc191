//! The lines of a script of worked cases: what is asked, what is expected, and how the two are compared.
//!
//! Guarantees: it is safe and ends, whatever a script has, where what answers the questions is. docs/SCRIPTS.md has the
//! form of a script.
//! Leaves to others: what the calls answer, in the programs that name their `Answers`.
#![tactic(auto)]

mod answers;
mod asked;
mod changes;
mod edits;
mod expanding;
mod fault;
mod files;
mod kept_text;
mod question;
mod repeated;
mod report;
mod stage;
mod texts;
mod words;
mod writing;

pub use answers::{
    put_bytes, put_path, put_words, say, say_at, say_broken, say_bytes, say_counted,
    say_fault_of_line, say_flag, say_number, say_path, say_pending, say_text, say_whole_text,
    say_words,
};
pub use asked::Asked;
pub use changes::say_change;
pub use edits::{say_edit_fault, say_line_fault};
pub use fault::Fault;
pub use files::{AnswersAll, check_files};
pub use kept_text::KeptText;
pub use repeated::Answers;
pub use stage::{Part, Stage};
pub use texts::say_text_fault;
pub use words::{
    Arg, args_of, bytes_of, first_and_rest, flag, halves, number, numbers, small_number, user_of,
    words_of,
};
pub use writing::Text;
