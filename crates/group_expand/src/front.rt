//! What the children of a path are given from.

ghost use Rattle.std.specs.Prelude.{◌≡◌, [], ◌++◌, map, flat_map, find, unwrap_or, if◌then◌else◌, IfOk, OnOk};
ghost use Rattle.std.specs.BTreeSet as set;
ghost use Rattle.std.specs.Option.{option_copied};
ghost use Rattle.cfg_base.specs.Order.{word_cmp};
ghost use Rattle.cfg_base.specs.Words.{Knows};
ghost use Rattle.cfg_tree.specs.Statements.{last_of};
ghost use Rattle.cfg_tree.specs.Tree.{step_of};
ghost use Rattle.group_expand.specs.Sources.{same_step};
ghost use Rattle.group_expand.specs.Fronts.{words_if_any, source_of, brought_by, front_of, brought_unless, kept_unless};

use crate::fitting::fitting;
use crate::groups::LiveGroups;
use crate::node::Node;
use crate::offer::{Offer, Source};
use crate::step::{apply_groups, apply_groups_except, is_head};
use cfg_base::{NoMemory, Path, Word, WordList, learn};
use std::alloc::Global;
use std::collections::BTreeSet;

/// The first node whose step is this head without a name.
pub fn node_with<'n, 'a>(nodes: &'n [Node<'a>], head: &[u8]) -> Option<&'n Node<'a>>
    ensures { option_copied result ≡ find (λ n. same_step (step_of head.now []) (last_of n.path)) nodes.now }
{
    nodes.iter().find(|node| is_head(head, node.step()))
}

/// The words of the first such node, where there is one.
fn words_with<'a>(nodes: &[Node<'a>], head: &[u8]) -> Option<&'a WordList>
    ensures { option_copied result ≡ words_if_any (step_of head.now []) nodes.now }
{
    match node_with(nodes, head) {
        None => None,
        Some(node) => Some(&node.value().words),
    }
}

/// Adds the words of a list to the known ones.
fn learn_all(known: &mut BTreeSet<Word>, words: &WordList) -> Result<(), NoMemory>
    requires { Knows [] known.old }
    ensures { OnOk result (Knows words.now known.new) }
{
    let mut left = words.iter();
    while let Some(word) = left.next() {
        let _ = learn(known, word)?;
    }
    Ok(())
}

/// The set of these words.
fn set_of(alloc: Global, words: Option<&WordList>) -> Result<BTreeSet<Word>, NoMemory>
    ensures { IfOk result (Knows (unwrap_or (option_copied words.entry) [])) }
{
    let mut known = BTreeSet::new(alloc);
    if let Some(words) = words {
        learn_all(&mut known, words)?;
    }
    Ok(known)
}

fn push_sources<'a>(
    front: &mut Vec<Source<'a>>,
    group: &'a Word,
    nodes: &[Node<'a>],
) -> Result<(), NoMemory>
    ensures { OnOk result (front.new.items ≡ front.old.items ++ map (source_of group.now) nodes.now) }
{
    for node in nodes {
        front.push(Source::of(group, node.same()))?;
    }
    Ok(())
}

/// Puts what of a group fits a path after others.
fn push_group<'a>(
    alloc: Global,
    front: &mut Vec<Source<'a>>,
    groups: &LiveGroups<'a>,
    path: &Path,
    group: &'a Word,
) -> Result<(), NoMemory>
    ensures { OnOk result (front.new.items ≡ front.old.items ++ brought_by groups.now path.now group.now) }
{
    let found = fitting(alloc, groups, group, path.steps())?;
    push_sources(front, group, &found)
}

/// The same, where the group isn't excepted.
fn push_unless<'a>(
    alloc: Global,
    front: &mut Vec<Source<'a>>,
    groups: &LiveGroups<'a>,
    path: &Path,
    gone: &BTreeSet<Word>,
    group: &'a Word,
) -> Result<(), NoMemory>
    ensures { OnOk result (front.new.items ≡ front.old.items ++ (if set.contains word_cmp gone.now group.now then [] else brought_by groups.now path.now group.now)) }
{
    if gone.contains(group) {
        return Ok(());
    }
    push_group(alloc, front, groups, path, group)
}

/// Puts what the groups of a list bring after others, but for those that are excepted.
fn push_applied<'a>(
    alloc: Global,
    front: &mut Vec<Source<'a>>,
    groups: &LiveGroups<'a>,
    path: &Path,
    gone: &BTreeSet<Word>,
    words: &'a WordList,
) -> Result<(), NoMemory>
    ensures { OnOk result (front.new.items ≡ front.old.items ++ flat_map (brought_unless groups.now path.now gone.now) words.now) }
{
    let mut left = words.iter();
    while let Some(group) = left.next() {
        push_unless(alloc, front, groups, path, gone, group)?;
    }
    Ok(())
}

/// The same of a list that may not be there.
fn push_listed<'a>(
    alloc: Global,
    front: &mut Vec<Source<'a>>,
    groups: &LiveGroups<'a>,
    path: &Path,
    gone: &BTreeSet<Word>,
    words: Option<&'a WordList>,
) -> Result<(), NoMemory>
    ensures { OnOk result (front.new.items ≡ front.old.items
        ++ flat_map (brought_unless groups.now path.now gone.now) (unwrap_or (option_copied words.entry) [])) }
{
    match words {
        None => Ok(()),
        Some(words) => push_applied(alloc, front, groups, path, gone, words),
    }
}

/// Puts what an offer brings to the level below after others, where its group isn't excepted.
fn push_kept<'a>(
    front: &mut Vec<Source<'a>>,
    gone: &BTreeSet<Word>,
    offer: &Offer<'a>,
) -> Result<(), NoMemory>
    ensures { OnOk result (front.new.items ≡ front.old.items ++ kept_unless gone.now offer.now) }
{
    if let Some(group) = offer.group() {
        if !gone.contains(group) {
            front.push(Source::of(group, offer.node().same()))?;
        }
    }
    Ok(())
}

fn push_all_kept<'a>(
    front: &mut Vec<Source<'a>>,
    gone: &BTreeSet<Word>,
    offers: &[Offer<'a>],
) -> Result<(), NoMemory>
    ensures { OnOk result (front.new.items ≡ front.old.items ++ flat_map (kept_unless gone.now) offers.now) }
{
    for offer in offers {
        push_kept(front, gone, offer)?;
    }
    Ok(())
}

/// What a path's children are given from, where these are its own statements right below, and what is
/// offered for itself.
pub fn front<'a>(
    alloc: Global,
    groups: &LiveGroups<'a>,
    path: &Path,
    own: &[Node<'a>],
    offers: &[Offer<'a>],
) -> Result<Vec<Source<'a>>, NoMemory>
    ensures { IfOk result (λ front. front.items ≡ front_of groups.now path.now own.now offers.now) }
{
    let gone = set_of(alloc, words_with(own, apply_groups_except()))?;
    let mut front = Vec::new(alloc);
    let applied = words_with(own, apply_groups());
    push_listed(alloc, &mut front, groups, path, &gone, applied)?;
    push_all_kept(&mut front, &gone, offers)?;
    Ok(front)
}
