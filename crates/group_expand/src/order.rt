//! The order of a level: its live names in the user's order, and then the inherited ones.

ghost use Rattle.std.specs.Prelude.{◌≡◌, ◌<◌, ◌++◌, length, filter, Some, IfOk, OnOk};
ghost use Rattle.std.specs.BTreeSet as set;
ghost use Rattle.std.specs.Option.{option_copied};
ghost use Rattle.cfg_base.specs.Order.{word_cmp};
ghost use Rattle.cfg_base.specs.Words.{lists, Knows};
ghost use Rattle.cfg_tree.specs.Tree.{ordered_head};
ghost use Rattle.group_expand.specs.Runs.{has_source, may_be_inherited, is_inherited, inherited_in, names_with, order_if, order_for, name_of};
ghost use Rattle.group_expand.specs.Level.{Climbs};

use crate::join::{begins_own, run_in};
use crate::level::{Level, Ranked};
use crate::node::Node;
use crate::offer::Offer;
use crate::run::{behind_run, first_run, first_step};
use crate::step::is_apply;
use cfg_base::{NoMemory, Step, Word, WordList, learn};
use cfg_schema::{Place, head};
use std::alloc::Global;
use std::collections::BTreeSet;

/// The head of the row below a place whose names keep the user's order, where there is such a row.
fn ordered_head(place: &Option<Place>) -> Option<&'static [u8]>
    ensures { option_copied result ≡ ordered_head place.now }
{
    match place {
        None => None,
        Some(here) => match here.ordered_row() {
            None => None,
            Some(row) => Some(head(row)),
        },
    }
}

/// The names of the nodes with a head.
fn names_with(alloc: Global, head: &[u8], nodes: &[Node<'_>]) -> Result<BTreeSet<Word>, NoMemory>
    ensures { IfOk result (Knows (names_with head.now nodes.now)) }
{
    let mut names = BTreeSet::new(alloc);
    for node in nodes {
        if head == node.step().head.as_bytes() {
            let _ = learn(&mut names, &node.step().name)?;
        }
    }
    Ok(names)
}

/// Puts those of some names that are among others after these.
fn push_known(
    order: &mut WordList,
    names: &WordList,
    known: &BTreeSet<Word>,
) -> Result<(), NoMemory>
    ensures { OnOk result (order.new ≡ order.old ++ filter (set.contains word_cmp known.now) names.now) }
{
    let mut left = names.iter();
    while let Some(name) = left.next() {
        if known.contains(name) {
            order.push(name.clone()?)?;
        }
    }
    Ok(())
}

/// Whether a run has a source.
fn has_source(run: &[Offer<'_>]) -> bool
    ensures { result ≡ has_source run.now }
{
    run.iter().any(|offer| offer.group().is_some())
}

/// Whether a step of a level with this head may be one that the configuration hasn't itself.
fn may_be_inherited(head: &[u8], step: &Step, run: &[Ranked<'_>]) -> bool
    ensures { result ≡ may_be_inherited head.now step.now run.now }
{
    head == step.head.as_bytes() && (is_apply(step) || !begins_own(run))
}

/// Whether a step's name stands in the order of its level though the configuration hasn't it itself.
fn is_inherited(
    alloc: Global,
    head: &[u8],
    step: &Step,
    run: &[Ranked<'_>],
    wild: &[Ranked<'_>],
) -> Result<bool, NoMemory>
    ensures { IfOk result (λ inherited. inherited ≡ is_inherited head.now step.now wild.now run.now) }
{
    // No wildcard is matched again for the configuration's own names.
    if !may_be_inherited(head, step, run) {
        return Ok(false);
    }
    let made = run_in(alloc, step, run, wild)?;
    Ok(has_source(&made))
}

/// Puts the name of a run after others, where it is inherited.
fn push_name(
    alloc: Global,
    order: &mut WordList,
    head: &[u8],
    run: &[Ranked<'_>],
    wild: &[Ranked<'_>],
) -> Result<(), NoMemory>
    requires { 0 < length run.now }
    ensures { OnOk result (order.new ≡ order.old ++ name_of head.now wild.now run.now) }
{
    let step = first_step(run);
    let inherited = is_inherited(alloc, head, step, run, wild)?;
    if inherited {
        order.push(step.name.clone()?)?;
    }
    Ok(())
}

/// Puts the inherited names of a level after others.
fn push_inherited(
    alloc: Global,
    order: &mut WordList,
    head: &[u8],
    level: &Level<'_>,
) -> Result<(), NoMemory>
    requires { Climbs level.now.plain }
    ensures { OnOk result (order.new ≡ order.old ++ inherited_in head.now level.now) }
{
    let mut left = level.plain();
    while !left.is_empty() {
        push_name(alloc, order, head, first_run(left), level.wild())?;
        left = behind_run(left);
    }
    Ok(())
}

/// Puts the configuration's own live names with a head after others, in the user's order.
fn push_own(
    alloc: Global,
    order: &mut WordList,
    head: &[u8],
    own: Option<&Node<'_>>,
    children: &[Node<'_>],
) -> Result<(), NoMemory>
    ensures { OnOk result (order.new ≡ order.old ++ filter (lists (names_with head.now children.now)) (order_if (option_copied own.entry))) }
{
    match own {
        None => Ok(()),
        Some(node) => {
            let live = names_with(alloc, head, children)?;
            push_known(order, &node.value().order, &live)
        }
    }
}

/// The order of a level with a head.
fn order_with(
    alloc: Global,
    head: &[u8],
    own: Option<&Node<'_>>,
    children: &[Node<'_>],
    level: &Level<'_>,
) -> Result<WordList, NoMemory>
    requires { Climbs level.now.plain }
    ensures { IfOk result (λ order. order ≡ order_for (Some head.now) (option_copied own.entry) children.now level.now) }
{
    let mut order = WordList::new(alloc);
    push_own(alloc, &mut order, head, own, children)?;
    push_inherited(alloc, &mut order, head, level)?;
    Ok(order)
}

/// The order of a level by the row of its place.
fn order_by_row(
    alloc: Global,
    place: &Option<Place>,
    own: Option<&Node<'_>>,
    children: &[Node<'_>],
    level: &Level<'_>,
) -> Result<WordList, NoMemory>
    requires { Climbs level.now.plain }
    ensures { IfOk result (λ order. order ≡ order_for (ordered_head place.now) (option_copied own.entry) children.now level.now) }
{
    match ordered_head(place) {
        None => Ok(WordList::new(alloc)),
        Some(head) => order_with(alloc, head, own, children, level),
    }
}

/// The order of a level.
pub fn order(
    alloc: Global,
    place: &Option<Place>,
    own: Option<&Node<'_>>,
    children: &[Node<'_>],
    level: &Level<'_>,
) -> Result<WordList, NoMemory>
    requires { Climbs level.now.plain }
    ensures { IfOk result (λ order. order ≡ order_for (ordered_head place.now) (option_copied own.entry) children.now level.now) }
{
    // Where nothing stands below, the row doesn't matter.
    if children.is_empty() && level.plain().is_empty() {
        return Ok(WordList::new(alloc));
    }
    order_by_row(alloc, place, own, children, level)
}
