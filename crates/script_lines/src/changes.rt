//! Changes by their words.

use crate::answers::say_words;
use crate::writing::Text;
use cfg_base::Words;
use commands::Op;

fn mark_of(before: bool) -> &'static str {
    if before { "before" } else { "after" }
}

/// A change of two statements, in two answers.
fn say_pair(out: &mut Text, keyword: &str, words: &Words, mark: &str, others: &Words) {
    say_words(out, keyword, words.as_slice());
    say_words(out, mark, others.as_slice());
}

/// A change with its words.
pub fn say_change(out: &mut Text, op: &Op) {
    match op {
        Op::Set(words) => say_words(out, "set", words.as_slice()),
        Op::Delete(words) => say_words(out, "delete", words.as_slice()),
        Op::Activate(words) => say_words(out, "activate", words.as_slice()),
        Op::Deactivate(words) => say_words(out, "deactivate", words.as_slice()),
        Op::Protect(words) => say_words(out, "protect", words.as_slice()),
        Op::Unprotect(words) => say_words(out, "unprotect", words.as_slice()),
        Op::Rename { from, to } => say_pair(out, "rename", from, "to", to),
        Op::Copy { from, to } => say_pair(out, "copy", from, "to", to),
        Op::Insert {
            moved,
            before,
            anchor,
        } => say_pair(out, "insert", moved, mark_of(*before), anchor),
    }
}
