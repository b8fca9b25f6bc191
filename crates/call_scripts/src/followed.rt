//! Expansions that follow one another, and are kept.

use crate::group_calls::say_expand_fault;
use cfg_base::NoMemory;
use cfg_tree::{Full, Tree};
use group_expand::{ExpandFault, expand};
use kept_expansion::Expanded;
use script_lines::{Fault, Text, say, say_number};
use std::alloc::Global;

fn made_after_last(alloc: Global, kept: &[Expanded], tree: &Tree) -> Result<Expanded, ExpandFault> {
    match kept.last() {
        Some(last) => last.following(alloc, tree),
        None => Expanded::of(alloc, tree),
    }
}

/// Whether two expansions have the same paths, and the same given at each.
fn are_same(full: &Full, other: &Full) -> bool {
    let mut left = full.walk();
    let mut beside = other.walk();
    while let Some((path, given)) = left.next() {
        match beside.next() {
            Some((at, found)) if path == at && given == found => {}
            _ => return false,
        }
    }
    beside.next().is_none()
}

/// Whether that is the expansion of the tree, made anew.
fn is_expansion(alloc: Global, full: &Full, tree: &Tree) -> Result<bool, NoMemory> {
    match expand(alloc, tree) {
        Ok(anew) => Ok(are_same(full, &anew)),
        Err(ExpandFault::TooWide) => Ok(false),
        Err(ExpandFault::NoMemory) => Err(NoMemory),
    }
}

/// follow: the tree's expansion, made after the one that was followed last, is kept too
pub(crate) fn follow(
    alloc: Global,
    kept: &mut Vec<Expanded>,
    tree: &Tree,
    out: &mut Text,
) -> Result<(), Fault> {
    match made_after_last(alloc, kept, tree) {
        Ok(made) => {
            let same = is_expansion(alloc, made.full(), tree)?;
            kept.push(made)?;
            say_number(out, kept.len() as u64);
            say(out, if same { "same" } else { "other" });
        }
        Err(fault) => say_expand_fault(out, fault),
    }
    Ok(())
}
