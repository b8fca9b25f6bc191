//! The three configurations merged.

ghost use Rattle.std.specs.Prelude.{◌≡◌, IfOk, IfErr};
ghost use Rattle.cfg_tree.specs.Tree.{IsTree};
ghost use Rattle.private_merge.specs.Merge.{IsMerge, IsMergeFault};
ghost use Rattle.private_merge.specs.Walking.{IsOwn, IsConflictFault};

use crate::fault::MergeFault;
use crate::sides::Sides;
use crate::values::conflicts;
use cfg_base::{Path, Value};
use cfg_tree::{Draft, Tree};
use std::alloc::Global;

/// What holds of three configurations.
fn are_trees(base: &Tree, active: &Tree, mine: &Tree)
    ensures base { IsTree base.now }
    ensures active { IsTree active.now }
    ensures mine { IsTree mine.now }
{
    // The clauses of these calls say it.
    let _ = base.count();
    let _ = active.count();
    let _ = mine.count();
}

/// The paths at which what is merged isn't what is active, each with the candidate's own value.
fn own_values(
    alloc: Global,
    base: &Tree,
    active: &Tree,
    mine: &Tree,
) -> Result<Vec<(Path, Option<Value>)>, MergeFault>
    requires base { IsTree base.now }
    requires active { IsTree active.now }
    requires mine { IsTree mine.now }
    ensures ok { IfOk result (λ own. IsOwn base.now active.now mine.now own.items) }
    ensures err { IfErr result (IsConflictFault base.now active.now mine.now) }
{
    let mut sides = Sides::of(base, active, mine);
    let mut own = Vec::new(alloc);
    while let Some(place) = sides.next() {
        if conflicts(base, active, mine, &place)? {
            return Err(MergeFault::Conflict(place.path().clone()?));
        }
        if place.is_changed() {
            own.push(place.own()?)?;
        }
    }
    Ok(own)
}

/// What a private candidate's own changes make of the active configuration: at each path the own value where it differs
/// from the base, else the active one. Junos OS CLI User Guide, on configure private and on update.
pub fn merge(alloc: Global, base: &Tree, active: &Tree, mine: &Tree) -> Result<Tree, MergeFault>
    ensures ok { IfOk result (λ tree. IsMerge base.now active.now mine.now tree) }
    ensures err { IfErr result (IsMergeFault base.now active.now mine.now) }
{
    are_trees(base, active, mine);
    match own_values(alloc, base, active, mine) {
        Err(fault) => Err(fault),
        Ok(own) => match Draft::with_values(alloc, active, own)?.into_tree() {
            Some(tree) => Ok(tree),
            None => Err(MergeFault::TooMany),
        },
    }
}
