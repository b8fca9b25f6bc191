//! Faults of texts.

use crate::answers::{say, say_at};
use crate::writing::Text;
use curly_grammar::TextFault;

/// Something that is so at a byte of a text whose end is known.
fn say_before(out: &mut Text, what: &str, place: u32, end: Option<u32>) {
    match end {
        Some(end) if end == place => {
            out.put("= ");
            out.put(what);
            out.put(" at the end\n");
        }
        _ => say_at(out, what, place),
    }
}

/// The fault of a curly text. Where its end is given, a fault there is reported at the end.
pub fn say_text_fault(out: &mut Text, fault: TextFault, end: Option<u32>) {
    match fault {
        TextFault::BadByte(place) => say_at(out, "bad byte", place),
        TextFault::OpenComment(place) => say_at(out, "comment not closed", place),
        TextFault::OpenQuote(place) => say_at(out, "quote not closed", place),
        TextFault::LongWord(place) => say_at(out, "word too long", place),
        TextFault::Unexpected(place) => say_before(out, "unexpected", place, end),
        TextFault::Unknown(place) => say_at(out, "unknown statement", place),
        TextFault::BadValue(place) => say_at(out, "bad value", place),
        TextFault::TooMany => say(out, "too many"),
        TextFault::NoMemory => out.lacks_memory(),
    }
}
