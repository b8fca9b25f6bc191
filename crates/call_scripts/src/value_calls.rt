//! Calls that read a word as a name or a value.

use crate::kinds::kind_of;
use cfg_values::{ValueFault, is_pattern, read_value};
use script_lines::{Arg, Fault, Text, say, say_bytes, say_flag};
use std::alloc::Global;

/// read_value KIND BYTES
fn ask_value(alloc: Global, args: &[Arg], out: &mut Text) -> Result<(), Fault> {
    let [kind, bytes] = args else {
        return Err(Fault::Script("read_value KIND BYTES"));
    };
    let kind = kind_of(kind)?;
    match read_value(alloc, kind, bytes) {
        Ok(word) => say_bytes(out, "word", word.as_bytes()),
        Err(ValueFault::NotOfKind(other)) if other == kind => say(out, "no"),
        Err(ValueFault::NotOfKind(_)) => say(out, "no, and of another kind"),
        Err(ValueFault::NoMemory) => out.lacks_memory(),
    }
    Ok(())
}

/// is_pattern BYTES
fn ask_pattern(args: &[Arg], out: &mut Text) -> Result<(), Fault> {
    match args {
        [bytes] => say_flag(out, is_pattern(bytes)),
        _ => return Err(Fault::Script("is_pattern BYTES")),
    }
    Ok(())
}

/// Answers one of these calls, where it is one.
pub(crate) fn ask(
    alloc: Global,
    call: &str,
    args: &[Arg],
    out: &mut Text,
) -> Option<Result<(), Fault>> {
    Some(match call {
        "read_value" => ask_value(alloc, args, out),
        "is_pattern" => ask_pattern(args, out),
        _ => return None,
    })
}
