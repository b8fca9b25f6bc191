//! Renaming and copying statements.

ghost use Rattle.std.specs.Prelude.{◌≡◌, OnOk, IfErr};
ghost use Rattle.cfg_tree.specs.Tree.{IsTree};
ghost use Rattle.edit_ops.specs.Change.{is_name_for, move_causes, renamed_to, copied_to};
ghost use Rattle.edit_ops.specs.Made.{IsBesidePath, IsPartMade, IsCause, IsUnrefused};

use crate::fault::EditFault;
use crate::guard::{guard, guard_below};
use cfg_base::{Path, Shape};
use cfg_schema::{Place, row};
use cfg_tree::Tree;

/// Whether a path below the same parent is another name for a statement.
pub fn is_name_for(path: &Path, other: &Path) -> bool
    ensures { result ≡ is_name_for path.now other.now }
{
    match Place::of(path.steps()) {
        None => false,
        Some(here) => match Place::of(other.steps()) {
            None => false,
            Some(there) => {
                matches!(row(here.row).shape, Shape::Keyed | Shape::Bare)
                    && other.steps().len() == path.steps().len()
                    && here.row == there.row
            }
        },
    }
}

/// The first cause for which a statement gets no other name, and no copy under one.
fn refuse_move(tree: &Tree, path: &Path, other: &Path) -> Result<(), EditFault>
    ensures ok { OnOk result (IsUnrefused (move_causes tree.now path.now other.now)) }
    ensures tree { OnOk result (IsTree tree.now) }
    ensures err { IfErr result (IsCause (move_causes tree.now path.now other.now)) }
{
    if !is_name_for(path, other) {
        return Err(EditFault::NotNamed(path.clone()?));
    }
    if tree.at(path).is_none() {
        return Err(EditFault::NotThere(path.clone()?));
    }
    if tree.at(other).is_some() {
        return Err(EditFault::AlreadyThere(other.clone()?));
    }
    Ok(())
}

/// The statements with one, and all below it, under another name.
pub fn rename(tree: &Tree, path: &Path, other: &Path) -> Result<Option<Tree>, EditFault>
    requires { IsBesidePath path.now other.now }
    ensures { IsPartMade tree.now (renamed_to tree.now path.now other.now) (λ _. ⊥) result }
{
    if let Err(fault) = refuse_move(tree, path, other) {
        return Err(fault);
    }
    if let Err(fault) = guard(tree, path, false) {
        return Err(fault);
    }
    if let Err(fault) = guard_below(tree, path) {
        return Err(fault);
    }
    let mut next = tree.copy()?;
    next.rename_statement(path, other)?;
    Ok(Some(next))
}

/// The statements with a copy of one, and of all below it, under another name.
pub fn copy(tree: &Tree, path: &Path, other: &Path) -> Result<Option<Tree>, EditFault>
    requires { IsBesidePath path.now other.now }
    ensures { IsPartMade tree.now (copied_to tree.now path.now other.now) (λ _. ⊥) result }
{
    if let Err(fault) = refuse_move(tree, path, other) {
        return Err(fault);
    }
    if let Err(fault) = guard(tree, other, false) {
        return Err(fault);
    }
    let mut next = tree.copy()?;
    match next.copy_statement(path, other) {
        Ok(()) => Ok(Some(next)),
        Err(fault) => Err(EditFault::from(fault)),
    }
}
