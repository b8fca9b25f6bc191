//! The whole check.

ghost use Rattle.std.specs.Prelude.{IfErr, IfOk, IsErrOf, OnOk, ◌≡◌, ◌<◌, ◌≤◌};
ghost use Rattle.std.specs.List.{AllByRecursion};
ghost use Rattle.std.specs.FinMap as map;
ghost use Rattle.cfg_tree.specs.Full.{Expansion};
ghost use Rattle.cfg_tree.specs.declared.limit.TheConstants.{MAX_EXPANDED};
ghost use Rattle.group_expand.specs.Expansion.{IsExpansion};
ghost use Rattle.commit_check.specs.Accepts.{Holds, IsAccepted, IsCheckFault};
ghost use Rattle.commit_check.specs.Among.{IsFaultOf, IsFaultAmong};

use crate::fault::CheckFault;
use crate::least::least;
use crate::rule::{CommitRule, number_of, rules};
use cfg_base::{NoMemory, Path};
use cfg_tree::{Full, Tree};
use group_expand::ExpandFault;
use kept_expansion::Expanded;
use std::alloc::Global;

/// Asks a rule of a configuration and its expansion.
fn ask(alloc: Global, rule: CommitRule, tree: &Tree, full: &Full) -> Result<(), CheckFault>
    requires { map.len full.now ≤ MAX_EXPANDED }
    ensures ok { OnOk result (Holds rule tree.now full.now) }
    ensures err { IfErr result (IsFaultOf rule tree.now full.now) }
{
    match least(alloc, rule, tree, full) {
        Err(NoMemory) => Err(CheckFault::NoMemory),
        Ok(None) => Ok(()),
        Ok(Some(path)) => Err(CheckFault::Rule {
            number: number_of(rule),
            path,
        }),
    }
}

/// Asks some rules, one after the other.
fn ask_all(alloc: Global, rules: &[CommitRule], tree: &Tree, full: &Full) -> Result<(), CheckFault>
    requires { map.len full.now ≤ MAX_EXPANDED }
    ensures ok { OnOk result (AllByRecursion (λ rule. Holds rule tree.now full.now) rules.now) }
    ensures err { IfErr result (IsFaultAmong rules.now tree.now full.now) }
{
    match rules {
        [] => Ok(()),
        [rule, rules @ ..] => {
            if let Err(fault) = ask(alloc, *rule, tree, full) {
                return Err(fault);
            }
            ask_all(alloc, rules, tree, full)
        }
    }
}

/// A configuration with its expansion, by that of the one before it, where that is at hand.
fn expanded(alloc: Global, tree: &Tree, last: &Option<Expanded>) -> Result<Expanded, ExpandFault>
    ensures ok { IfOk result (λ made. made.0 ≡ tree.now) }
    ensures wide { IsErrOf result ExpandFault.TooWide → (full : Expansion) × IsExpansion tree.now full × (MAX_EXPANDED < map.len full) }
{
    match last {
        Some(last) => last.following(alloc, tree),
        None => Expanded::of(alloc, tree),
    }
}

/// The expansion of a configuration that every rule accepts, or the least fault: that of the rule of the lowest number that
/// doesn't hold, at the least path.
pub fn check(alloc: Global, tree: &Tree) -> Result<Full, CheckFault>
    ensures ok { IfOk result (IsAccepted tree.now) }
    ensures err { IfErr result (IsCheckFault tree.now) }
{
    match check_after(alloc, tree, &None) {
        Ok(made) => Ok(made.into_full()),
        Err(fault) => Err(fault),
    }
}

/// The same, of a configuration that may follow one whose expansion is at hand: what both expansions have is shared.
#[tactic(auto, using(crate::proofs::CheckLemmas::accepted, crate::proofs::CheckLemmas::fault_is, crate::proofs::CheckLemmas::wide_is))]
pub fn check_after(
    alloc: Global,
    tree: &Tree,
    last: &Option<Expanded>,
) -> Result<Expanded, CheckFault>
    ensures ok { IfOk result (λ made. made.0 ≡ tree.now) }
    ensures accepted { IfOk result (λ made. IsAccepted tree.now made.1) }
    ensures err { IfErr result (IsCheckFault tree.now) }
{
    match expanded(alloc, tree, last) {
        Err(ExpandFault::NoMemory) => Err(CheckFault::NoMemory),
        Err(ExpandFault::TooWide) => Err(CheckFault::Rule {
            number: number_of(CommitRule::Width),
            path: Path::top(alloc),
        }),
        Ok(made) => match ask_all(alloc, rules(), tree, made.full()) {
            Err(fault) => Err(fault),
            Ok(()) => Ok(made),
        },
    }
}
