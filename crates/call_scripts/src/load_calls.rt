//! Loads of a text into the script's tree.

use cfg_tree::Tree;
use commands::LoadWay;
use load_ops::{LoadFault, load};
use script_lines::{Text, say, say_fault_of_line, say_line_fault, say_path, say_text_fault};
use set_text::LineFault;
use std::alloc::Global;

/// The way of loading that a call asks for.
pub(crate) fn way_of(call: &str) -> Option<LoadWay> {
    match call {
        "load_merge" => Some(LoadWay::Merge),
        "load_override" => Some(LoadWay::Override),
        "load_replace" => Some(LoadWay::Replace),
        "load_set" => Some(LoadWay::SetLines),
        _ => None,
    }
}

fn say_load_fault(out: &mut Text, fault: &LoadFault) {
    match fault {
        LoadFault::Text(fault) => say_text_fault(out, *fault, None),
        LoadFault::Line(LineFault::Line { line, place }) => say_fault_of_line(out, *line, *place),
        LoadFault::Edit { line, fault } => say_line_fault(out, *line, fault),
        LoadFault::Protected(path) => say_path(out, "protected", path),
        LoadFault::TooMany => say(out, "too many"),
        LoadFault::Line(LineFault::NoMemory) | LoadFault::NoMemory => out.lacks_memory(),
    }
}

/// load_merge TEXT and the like: the text is loaded into the tree
pub(crate) fn ask_load(alloc: Global, tree: &mut Tree, way: LoadWay, text: &[u8], out: &mut Text) {
    match load(alloc, tree, way, text) {
        Ok(true) => say(out, "changed"),
        Ok(false) => say(out, "unchanged"),
        Err(fault) => say_load_fault(out, &fault),
    }
}
