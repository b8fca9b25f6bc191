//! One change of the statements.

ghost use Rattle.std.specs.Prelude.{◌≡◌, IfOk, IfErr, OnErr};
ghost use Rattle.cfg_tree.specs.Typed.{IsLevelPath};
ghost use Rattle.edit_ops.specs.Change.{changed};
ghost use Rattle.edit_ops.specs.Block.{IsSpared};
ghost use Rattle.edit_ops.specs.Answer.{IsChange, IsEditFault, IsWhole};
ghost use Rattle.edit_ops.specs.Made.{IsSubject, IsPartMade};

use crate::asked::asked;
use crate::delete::delete;
use crate::fault::EditFault;
use crate::insert::insert;
use crate::mark::{mark_inactive, mark_protected};
use crate::moves::{copy, rename};
use crate::set::set;
use crate::subject::Subject;
use cfg_base::Path;
use cfg_tree::Tree;
use commands::Op;
use std::alloc::Global;

/// The statements after a change of what its words name; none where it changes nothing.
fn made(alloc: Global, tree: &Tree, op: &Op, subject: &Subject) -> Result<Option<Tree>, EditFault>
    requires subject { IsSubject subject.now }
    requires whole { IsWhole op.now subject.now.target }
    ensures { IsPartMade tree.now (changed tree.now op.now subject.now) (IsSpared op.now subject.now.target.path) result }
{
    let path = &subject.target.path;
    match op {
        Op::Set(_) => set(alloc, tree, &subject.target),
        Op::Delete(_) => delete(alloc, tree, &subject.target),
        Op::Activate(_) => mark_inactive(tree, path, false),
        Op::Deactivate(_) => mark_inactive(tree, path, true),
        Op::Protect(_) => mark_protected(tree, path, true),
        Op::Unprotect(_) => mark_protected(tree, path, false),
        Op::Rename { .. } => rename(tree, path, subject.other()),
        Op::Copy { .. } => copy(tree, path, subject.other()),
        Op::Insert { before, .. } => insert(alloc, tree, path, *before, subject.other()),
    }
}

/// Makes one change of the statements, its words read from a level, and reports whether anything changed.
/// Junos OS CLI User Guide, on set, delete, activate, deactivate, protect, unprotect, rename, copy and insert.
pub fn apply(alloc: Global, tree: &mut Tree, level: &Path, op: &Op) -> Result<bool, EditFault>
    requires { IsLevelPath level.now }
    ensures ok { IfOk result (IsChange tree.old tree.new level.now op.now) }
    ensures err { IfErr result (IsEditFault tree.old level.now op.now) }
    ensures unchanged { OnErr result (tree.new ≡ tree.old) }
{
    let subject = asked(alloc, level, op)?;
    match made(alloc, tree, op, &subject) {
        Ok(None) => Ok(false),
        Ok(Some(next)) => {
            *tree = next;
            Ok(true)
        }
        Err(fault) => Err(fault),
    }
}
