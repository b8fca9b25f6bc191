//! Trees that are made anew beside one another, and kept.

use cfg_base::NoMemory;
use cfg_tree::Tree;
use script_lines::{Fault, Text, say, say_number};
use std::alloc::Global;

fn made_beside_last(alloc: Global, kept: &[Tree], tree: &Tree) -> Result<Tree, NoMemory> {
    match kept.last() {
        Some(older) => tree.beside(alloc, older),
        None => tree.beside(alloc, &Tree::empty(alloc)),
    }
}

/// keep: the tree, made anew beside the one that was kept last, is kept too
pub(crate) fn keep(
    alloc: Global,
    kept: &mut Vec<Tree>,
    tree: &Tree,
    out: &mut Text,
) -> Result<(), Fault> {
    let made = made_beside_last(alloc, kept, tree)?;
    let answer = if made.same(tree) { "same" } else { "other" };
    kept.push(made)?;
    say_number(out, kept.len() as u64);
    say(out, answer);
    Ok(())
}
