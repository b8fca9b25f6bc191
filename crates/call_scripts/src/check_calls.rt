//! Calls of commit check, and of the length of the text that it limits.

use cfg_tree::Tree;
use commit_check::{CheckFault, check};
use curly_print::text_len;
use script_lines::{Text, say, say_broken, say_number};
use std::alloc::Global;

/// check
fn ask_check(alloc: Global, tree: &Tree, out: &mut Text) {
    match check(alloc, tree) {
        Ok(_) => say(out, "accepted"),
        Err(CheckFault::Rule { number, path }) => say_broken(out, number, &path),
        Err(CheckFault::NoMemory) => out.lacks_memory(),
    }
}

/// Answers one of these calls, and reports whether it is one.
pub(crate) fn ask(alloc: Global, tree: &Tree, call: &str, out: &mut Text) -> bool {
    match call {
        "check" => ask_check(alloc, tree, out),
        "text_len" => say_number(out, text_len(tree)),
        _ => return false,
    }
    true
}
