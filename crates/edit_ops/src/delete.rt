//! Taking statements, and words of them, away.

ghost use Rattle.std.specs.Prelude.{◌<◌, length, Ok, IsSome};
ghost use Rattle.std.specs.FinMap as map;
ghost use Rattle.cfg_tree.specs.Tree.{IsTree};
ghost use Rattle.cfg_tree.specs.Change.{removed};
ghost use Rattle.edit_ops.specs.Change.{left_at, deleted_at};
ghost use Rattle.edit_ops.specs.Made.{IsTarget, IsPartMade, IsPart};

use crate::fault::EditFault;
use crate::guard::{guard, guard_below};
use crate::set::replace;
use cfg_base::{Path, Value, WordList};
use cfg_resolve::Target;
use cfg_tree::Tree;
use std::alloc::Global;

/// The statements without one and all below it.
fn take(tree: &Tree, path: &Path) -> Result<Option<Tree>, EditFault>
    requires steps { 0 < length path.now }
    requires tree { IsTree tree.now }
    requires there { IsSome (map.get tree.now path.now) }
    ensures { IsPartMade tree.now (Ok (removed tree.now path.now)) (λ _. ⊥) result }
{
    if let Err(fault) = guard(tree, path, false) {
        return Err(fault);
    }
    if let Err(fault) = guard_below(tree, path) {
        return Err(fault);
    }
    let mut next = tree.copy()?;
    let _ = next.remove(path)?;
    Ok(Some(next))
}

fn leave(tree: &Tree, path: &Path, value: &Value, left: WordList) -> Result<Option<Tree>, EditFault>
    requires steps { 0 < length path.now }
    requires tree { IsTree tree.now }
    requires part { IsPart tree.now path.now value.now left }
    ensures { IsPartMade tree.now (Ok (left_at tree.now path.now value.now left)) (λ _. ⊥) result }
{
    if left.is_empty() {
        return take(tree, path);
    }
    let mut value = value.clone()?;
    value.words = left;
    replace(tree, path, value, false)
}

/// The statements without the target, or without its words.
pub fn delete(alloc: Global, tree: &Tree, target: &Target) -> Result<Option<Tree>, EditFault>
    requires { IsTarget target.now }
    ensures { IsPartMade tree.now (deleted_at tree.now target.now.path target.now.words) (λ _. ⊥) result }
{
    let value = match tree.at(&target.path) {
        Some(value) => value,
        None => return Err(EditFault::NotThere(target.path.clone()?)),
    };
    let gone = target.words.as_slice();
    if gone.is_empty() {
        return take(tree, &target.path);
    }
    let all = value.words.has_all(alloc, gone)?;
    if !all {
        return Err(EditFault::NotThere(target.path.clone()?));
    }
    let left = value.words.without(gone)?;
    leave(tree, &target.path, value, left)
}
