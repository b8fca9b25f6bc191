//! Which protected statement keeps a change.

ghost use Rattle.std.specs.Prelude.{◌≡◌, ◌<◌, length, Decides, OnOk, IfErr, MatchOption};
ghost use Rattle.cfg_tree.specs.Tree.{IsTree};
ghost use Rattle.edit_ops.specs.Block.{IsProtected};
ghost use Rattle.edit_ops.specs.Made.{guarded, IsOpen, IsGuardFault, IsOpenBelow, IsFirstBelow, IsBelowFault};

use crate::fault::EditFault;
use cfg_base::Path;
use cfg_tree::Tree;

fn is_protected(tree: &Tree, path: &Path) -> bool
    ensures { Decides result (IsProtected tree.now path.now) }
{
    match tree.at(path) {
        Some(value) => value.protected,
        None => false,
    }
}

fn guarded(path: &Path, spared: bool) -> usize
    requires { 0 < length path.now }
    ensures { result ≡ guarded spared (length path.now) }
{
    if spared {
        path.steps().len() - 1
    } else {
        path.steps().len()
    }
}

/// Refuses a change where a level on the way to a path, or the path itself unless it is spared, is protected.
pub fn guard(tree: &Tree, path: &Path, spared: bool) -> Result<(), EditFault>
    requires steps { 0 < length path.now }
    requires tree { IsTree tree.now }
    ensures ok { OnOk result (IsOpen tree.now (guarded spared (length path.now)) path.now) }
    ensures err { IfErr result (IsGuardFault tree.now (guarded spared (length path.now)) path.now) }
{
    for k in 0..guarded(path, spared) {
        let above = path.prefix(k + 1)?;
        if is_protected(tree, &above) {
            return Err(EditFault::Protected(above));
        }
    }
    Ok(())
}

/// The first protected statement below a path.
fn protected_below<'a>(tree: &'a Tree, path: &'a Path) -> Option<&'a Path>
    ensures { MatchOption result (IsOpenBelow tree.now path.now) (λ found. IsFirstBelow tree.now path.now found.now) }
{
    let mut before = path;
    while let Some((next, value)) = tree.next(before) {
        if !next.is_below(path) {
            return None;
        }
        if value.protected {
            return Some(next);
        }
        before = next;
    }
    None
}

/// Refuses a removal where what is below a path is protected.
pub fn guard_below(tree: &Tree, path: &Path) -> Result<(), EditFault>
    ensures ok { OnOk result (IsOpenBelow tree.now path.now) }
    ensures err { IfErr result (IsBelowFault tree.now path.now) }
{
    match protected_below(tree, path) {
        Some(below) => Err(EditFault::Protected(below.clone()?)),
        None => Ok(()),
    }
}
