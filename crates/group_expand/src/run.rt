//! The plain offers of a level, step by step, and what all offers for a step give.

ghost use Rattle.std.specs.Prelude.{◌≡◌, ◌<◌, ◌≤◌, not, length, take, drop, IfOk};
ghost use Rattle.std.specs.List.{position};
ghost use Rattle.std.specs.Option.{option_copied};
ghost use Rattle.cfg_tree.specs.Statements.{no_step};
ghost use Rattle.group_expand.specs.Sources.{is_outside};
ghost use Rattle.group_expand.specs.Level.{is_at};
ghost use Rattle.group_expand.specs.Runs.{first_step, run_length, own_of, source_gift, run_gift};

use crate::level::Ranked;
use crate::node::Node;
use crate::offer::Offer;
use crate::step::{groups, is_apply, is_head};
use cfg_base::{NoMemory, Path, Step, Word, WordList};
use std::alloc::Global;
use std::marker::Model;

/// Whether an offer isn't for a step.
fn is_other(step: &Step, ranked: &Ranked<'_>) -> bool
    ensures { result ≡ not (is_at step.now ranked.now) }
{
    !step.cmp(ranked.step()).is_eq()
}

fn first_other(step: &Step, level: &[Ranked<'_>]) -> Option<usize>
    ensures { result ≡ position (λ ranked. not (is_at step.now ranked)) level.now }
{
    level.iter().position(|ranked| is_other(step, ranked))
}

/// How many of the first offers are for the first one's step.
fn run_length(level: &[Ranked<'_>]) -> usize
    requires { 0 < length level.now }
    ensures is { result ≡ run_length level.now }
    ensures within { result ≤ length level.now }
{
    match first_other(level[0].step(), level) {
        Some(at) => at,
        None => level.len(),
    }
}

/// The step of the first offer.
pub fn first_step<'a>(level: &[Ranked<'a>]) -> &'a Step
    requires { 0 < length level.now }
    ensures { result.now ≡ first_step level.now no_step }
{
    level[0].step()
}

/// The first run of a level.
pub fn first_run<'s, 'a>(level: &'s [Ranked<'a>]) -> &'s [Ranked<'a>]
    requires { 0 < length level.now }
    ensures { result.now ≡ take (run_length level.now) level.now }
{
    level.split_at(run_length(level)).0
}

/// What stands after the first run of a level.
pub fn behind_run<'s, 'a>(level: &'s [Ranked<'a>]) -> &'s [Ranked<'a>]
    requires { 0 < length level.now }
    ensures { result.now ≡ drop (run_length level.now) level.now }
{
    level.split_at(run_length(level)).1
}

/// The configuration's own node of a run, where it has one.
pub fn own_of<'s, 'a>(run: &'s [Offer<'a>]) -> Option<&'s Node<'a>>
    ensures { option_copied result ≡ own_of run.now }
{
    let first = run.first()?;
    match first.group() {
        None => Some(first.node()),
        Some(_) => None,
    }
}

/// What a path has: its words, and the group that they come from.
#[derive(Debug, Drop)]
pub struct Gift {
    pub words: WordList,
    pub group: Word,
}

impl Model for Gift {
    ghost use Rattle.group_expand.specs.Expansion as gift;

    ghost Value = { gift.Gift };

    ghost view = { λ g. record { words = g.words; group = g.group } };
}

fn gift_of_node(node: &Node<'_>, group: Word) -> Result<Gift, NoMemory>
    ensures { IfOk result (λ gift. gift ≡ record { words = node.now.value.words; group = group }) }
{
    Ok(Gift {
        words: node.value().words.clone()?,
        group,
    })
}

/// The gift of a run's first source.
fn source_gift(run: &[Offer<'_>]) -> Result<Option<Gift>, NoMemory>
    ensures { IfOk result (λ gift. gift ≡ source_gift run.now) }
{
    for offer in run {
        if let Some(group) = offer.group() {
            return Ok(Some(gift_of_node(offer.node(), group.clone()?)?));
        }
    }
    Ok(None)
}

/// Whether a path stands outside the groups.
pub fn is_outside(path: &Path) -> bool
    ensures { result ≡ is_outside path.now }
{
    match path.steps().first() {
        None => true,
        Some(step) => !is_head(groups(), step),
    }
}

/// What a run gives to a path with this last step.
pub fn run_gift(
    alloc: Global,
    path: &Path,
    step: &Step,
    run: &[Offer<'_>],
) -> Result<Option<Gift>, NoMemory>
    ensures { IfOk result (λ gift. gift ≡ run_gift path.now step.now run.now) }
{
    if !is_outside(path) {
        return Ok(None);
    }
    if is_apply(step) {
        return source_gift(run);
    }
    match own_of(run) {
        None => source_gift(run),
        Some(node) => Ok(Some(gift_of_node(node, Word::empty(alloc))?)),
    }
}
