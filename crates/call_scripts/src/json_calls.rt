//! Calls that read a JSON text, and write one.

use cfg_tree::Tree;
use json_text::{JsonFault, ReadFault, read, write};
use script_lines::{Arg, Fault, Text, say, say_counted, say_path, say_whole_text};
use std::alloc::Global;

fn say_fault(out: &mut Text, fault: &JsonFault) {
    match fault {
        JsonFault::NotJson => say(out, "not json"),
        JsonFault::Unknown(path) => say_path(out, "unknown statement", path),
        JsonFault::BadValue(path) => say_path(out, "bad value", path),
        JsonFault::Form(path) => say_path(out, "wrong form", path),
        JsonFault::TooMany => say(out, "too many"),
    }
}

/// read_json TEXT: how many statements the text says; the tree has these statements from then on
pub(crate) fn ask_read(alloc: Global, tree: &mut Tree, text: &[u8], out: &mut Text) {
    match read(alloc, text) {
        Ok(said) => {
            say_counted(out, "read", u64::from(said.count()));
            *tree = said;
        }
        Err(ReadFault::Json(fault)) => say_fault(out, &fault),
        Err(ReadFault::NoMemory) => out.lacks_memory(),
    }
}

/// write_json: the JSON text of the tree
pub(crate) fn ask_write(
    alloc: Global,
    tree: &Tree,
    args: &[Arg],
    out: &mut Text,
) -> Result<(), Fault> {
    if !args.is_empty() {
        return Err(Fault::Script("write_json"));
    }
    let text = write(alloc, tree)?;
    say_whole_text(out, text.as_slice());
    Ok(())
}
