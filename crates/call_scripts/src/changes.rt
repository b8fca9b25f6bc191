//! Changes of the tree that a script keeps, and looks at it.

ghost use Rattle.cfg_tree.specs.Typed.{IsLevelPath};

use crate::json_calls::ask_write;
use crate::level::resolved;
use cfg_base::{Path, Value, WordList, Words};
use cfg_tree::Tree;
use commands::Op;
use curly_print::print;
use edit_ops::apply;
use script_lines::{
    Arg, Fault, Text, halves, put_bytes, put_path, say, say_edit_fault, say_number, say_path,
    say_whole_text, words_of,
};
use set_text::print_lines;
use std::alloc::Global;

/// The change of that name with these words.
fn op_of_one(call: &str, words: Words) -> Option<Op> {
    match call {
        "set" => Some(Op::Set(words)),
        "delete" => Some(Op::Delete(words)),
        "activate" => Some(Op::Activate(words)),
        "deactivate" => Some(Op::Deactivate(words)),
        "protect" => Some(Op::Protect(words)),
        "unprotect" => Some(Op::Unprotect(words)),
        _ => None,
    }
}

/// The change of that name with the words of two statements.
fn op_of_two(call: &str, from: Words, to: Words) -> Option<Op> {
    match call {
        "rename" => Some(Op::Rename { from, to }),
        "copy" => Some(Op::Copy { from, to }),
        "insert_before" | "insert_after" => Some(Op::Insert {
            moved: from,
            before: call == "insert_before",
            anchor: to,
        }),
        _ => None,
    }
}

/// The change of that name; the words of a second statement stand after `--`.
pub(crate) fn op_of(alloc: Global, call: &str, args: &[Arg]) -> Result<Option<Op>, Fault> {
    match call {
        "rename" | "copy" | "insert_before" | "insert_after" => {
            let (from, to) = halves(args)?;
            Ok(op_of_two(call, words_of(alloc, from)?, words_of(alloc, to)?))
        }
        _ => Ok(op_of_one(call, words_of(alloc, args)?)),
    }
}

/// set WORDS.., rename WORDS.. -- WORDS.. and so on: one change of the tree, whose words are read from a level.
pub(crate) fn change(alloc: Global, tree: &mut Tree, level: &Path, op: &Op, out: &mut Text)
    requires { IsLevelPath level.now }
{
    match apply(alloc, tree, level, op) {
        Ok(true) => say(out, "changed"),
        Ok(false) => say(out, "unchanged"),
        Err(fault) => say_edit_fault(out, &fault),
    }
}

pub(crate) fn put_word_list(out: &mut Text, words: &WordList) {
    let mut left = words.iter();
    while let Some(word) = left.next() {
        put_bytes(out, word.as_bytes());
    }
}

/// The words of a statement, after `--`.
pub(crate) fn put_own_words(out: &mut Text, words: &WordList) {
    if !words.is_empty() {
        out.put(" --");
    }
    put_word_list(out, words);
}

/// A statement: its marks, its path, and its words.
fn say_statement(out: &mut Text, path: &Path, value: &Value) {
    out.put("=");
    if value.inactive {
        out.put(" inactive:");
    }
    if value.protected {
        out.put(" protect:");
    }
    put_path(out, path);
    put_own_words(out, &value.words);
    out.put("\n");
}

/// tree: how many statements stand, and each, in the order of their paths
fn ask_tree(alloc: Global, tree: &Tree, out: &mut Text) -> Result<(), Fault> {
    say_number(out, u64::from(tree.count()));
    let mut path = Path::top(alloc);
    for _ in 0..tree.count() {
        match tree.next(&path) {
            Some((next, value)) => {
                say_statement(out, next, value);
                path = next.clone()?;
            }
            None => return Ok(()),
        }
    }
    Ok(())
}

/// The path that words name from the top, whatever stands there.
pub(crate) fn path_named(alloc: Global, args: &[Arg]) -> Result<Path, Fault> {
    if args.is_empty() {
        return Ok(Path::top(alloc));
    }
    let words = words_of(alloc, args)?;
    match resolved(alloc, &words) {
        Ok(target) => Ok(target.path),
        Err(_) => Err(Fault::Script("the words name a statement")),
    }
}

/// value WORDS..
fn ask_value(alloc: Global, tree: &Tree, args: &[Arg], out: &mut Text) -> Result<(), Fault> {
    let path = path_named(alloc, args)?;
    match tree.at(&path) {
        Some(value) => say_statement(out, &path, value),
        None => say(out, "none"),
    }
    Ok(())
}

/// children WORDS..
fn ask_children(alloc: Global, tree: &Tree, args: &[Arg], out: &mut Text) -> Result<(), Fault> {
    let children = tree.children(&path_named(alloc, args)?)?;
    say_number(out, children.as_slice().len() as u64);
    for step in children.as_slice() {
        out.put("=");
        put_bytes(out, step.head.as_bytes());
        put_bytes(out, step.name.as_bytes());
        out.put("\n");
    }
    Ok(())
}

/// next WORDS..
fn ask_next(alloc: Global, tree: &Tree, args: &[Arg], out: &mut Text) -> Result<(), Fault> {
    match tree.next(&path_named(alloc, args)?) {
        Some((path, value)) => say_statement(out, path, value),
        None => say(out, "none"),
    }
    Ok(())
}

/// print WORDS..: the curly text below what the words name
fn ask_print(alloc: Global, tree: &Tree, args: &[Arg], out: &mut Text) -> Result<(), Fault> {
    let text = print(alloc, tree, &path_named(alloc, args)?)?;
    say_whole_text(out, text.as_slice());
    Ok(())
}

/// print_lines WORDS..: the set lines below what the words name
fn ask_print_lines(alloc: Global, tree: &Tree, args: &[Arg], out: &mut Text) -> Result<(), Fault> {
    let text = print_lines(alloc, tree, &path_named(alloc, args)?)?;
    say_whole_text(out, text.as_slice());
    Ok(())
}

/// count
fn ask_count(tree: &Tree, out: &mut Text) -> Result<(), Fault> {
    say_number(out, u64::from(tree.count()));
    Ok(())
}

/// Answers a look at the tree, where the call is one.
pub(crate) fn look(
    alloc: Global,
    tree: &Tree,
    call: &str,
    args: &[Arg],
    out: &mut Text,
) -> Option<Result<(), Fault>> {
    Some(match call {
        "tree" => ask_tree(alloc, tree, out),
        "count" => ask_count(tree, out),
        "value" => ask_value(alloc, tree, args, out),
        "children" => ask_children(alloc, tree, args, out),
        "next" => ask_next(alloc, tree, args, out),
        "print" => ask_print(alloc, tree, args, out),
        "print_lines" => ask_print_lines(alloc, tree, args, out),
        "write_json" => ask_write(alloc, tree, args, out),
        _ => return None,
    })
}
