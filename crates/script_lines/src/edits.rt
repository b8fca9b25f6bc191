//! Refused changes.

use crate::answers::{say, say_counted, say_path};
use crate::writing::Text;
use edit_ops::EditFault;

/// Why a change is refused, and where.
pub fn say_edit_fault(out: &mut Text, fault: &EditFault) {
    match fault {
        EditFault::Unknown(path) => say_path(out, "unknown", path),
        EditFault::BadValue(path) => say_path(out, "bad value", path),
        EditFault::Incomplete(path) => say_path(out, "incomplete", path),
        EditFault::Extra(path) => say_path(out, "extra", path),
        EditFault::NotNamed(path) => say_path(out, "not named", path),
        EditFault::NotOrdered(path) => say_path(out, "not ordered", path),
        EditFault::NotThere(path) => say_path(out, "not there", path),
        EditFault::AlreadyThere(path) => say_path(out, "already there", path),
        EditFault::Protected(path) => say_path(out, "protected", path),
        EditFault::TooMany => say(out, "too many"),
        EditFault::NoMemory => out.lacks_memory(),
    }
}

/// The refusal of a line's change, after the line's number.
pub fn say_line_fault(out: &mut Text, line: u32, fault: &EditFault) {
    say_counted(out, "line", u64::from(line));
    say_edit_fault(out, fault);
}
