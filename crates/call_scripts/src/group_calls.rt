//! Calls of the tree's expansion: what is in force once groups are applied.

use crate::changes::{path_named, put_own_words, put_word_list};
use cfg_base::{NoMemory, Path, Word, WordList};
use cfg_tree::{Full, Given, Tree};
use curly_print::print_inherited;
use group_expand::{ExpandFault, expand};
use script_lines::{Arg, Fault, Text, put_bytes, put_path, say, say_number, say_whole_text};
use std::alloc::Global;

/// The group that a statement was inherited from, after `<-`.
fn put_group(out: &mut Text, group: &Word) {
    if !group.as_bytes().is_empty() {
        out.put(" <-");
        put_bytes(out, group.as_bytes());
    }
}

/// The names of a level's ordered children.
fn say_order(out: &mut Text, order: &WordList) {
    if !order.is_empty() {
        out.put("= order");
        put_word_list(out, order);
        out.put("\n");
    }
}

/// A path with what is given there.
fn say_given(out: &mut Text, path: &Path, given: &Given) {
    out.put("=");
    put_path(out, path);
    put_own_words(out, &given.words);
    put_group(out, &given.group);
    out.put("\n");
    say_order(out, &given.order);
}

/// Each path of an expansion, in their order.
fn say_full(out: &mut Text, full: &Full) {
    say_number(out, u64::from(full.count()));
    let mut left = full.walk();
    while let Some((path, given)) = left.next() {
        say_given(out, path, given);
    }
}

/// Why a tree has no expansion.
pub(crate) fn say_expand_fault(out: &mut Text, fault: ExpandFault) {
    match fault {
        ExpandFault::TooWide => say(out, "too wide"),
        ExpandFault::NoMemory => out.lacks_memory(),
    }
}

/// expand: how many paths the expansion has, and each
fn ask_expand(alloc: Global, tree: &Tree, out: &mut Text) {
    match expand(alloc, tree) {
        Ok(full) => say_full(out, &full),
        Err(fault) => say_expand_fault(out, fault),
    }
}

/// paths
fn ask_paths(alloc: Global, tree: &Tree, out: &mut Text) {
    match expand(alloc, tree) {
        Ok(full) => say_number(out, u64::from(full.count())),
        Err(fault) => say_expand_fault(out, fault),
    }
}

fn say_at_path(out: &mut Text, full: &Full, path: &Path) {
    match full.at(path) {
        Some(given) => say_given(out, path, given),
        None => say(out, "none"),
    }
}

/// What is given at a path.
fn ask_given(alloc: Global, tree: &Tree, path: &Path, out: &mut Text) {
    match expand(alloc, tree) {
        Ok(full) => say_at_path(out, &full, path),
        Err(fault) => say_expand_fault(out, fault),
    }
}

fn say_inherited(alloc: Global, out: &mut Text, full: &Full, path: &Path) {
    match print_inherited(alloc, full, path) {
        Ok(text) => say_whole_text(out, text.as_slice()),
        Err(NoMemory) => out.lacks_memory(),
    }
}

/// The expansion's text below a path.
fn ask_print(alloc: Global, tree: &Tree, path: &Path, out: &mut Text) {
    match expand(alloc, tree) {
        Ok(full) => say_inherited(alloc, out, &full, path),
        Err(fault) => say_expand_fault(out, fault),
    }
}

/// given WORDS.. and print_inherited WORDS..
fn ask_below(
    alloc: Global,
    tree: &Tree,
    call: &str,
    args: &[Arg],
    out: &mut Text,
) -> Result<(), Fault> {
    let path = path_named(alloc, args)?;
    if call == "given" {
        ask_given(alloc, tree, &path, out);
    } else {
        ask_print(alloc, tree, &path, out);
    }
    Ok(())
}

/// Answers a call of the tree's expansion, where it is one.
pub(crate) fn ask(
    alloc: Global,
    tree: &Tree,
    call: &str,
    args: &[Arg],
    out: &mut Text,
) -> Option<Result<(), Fault>> {
    match call {
        "expand" => ask_expand(alloc, tree, out),
        "paths" => ask_paths(alloc, tree, out),
        "given" | "print_inherited" => return Some(ask_below(alloc, tree, call, args, out)),
        _ => return None,
    }
    Some(Ok(()))
}
