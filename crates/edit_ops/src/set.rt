//! Putting statements.

ghost use Rattle.std.specs.Prelude.{◌≡◌, ◌==◌, ◌&&◌, ◌-◌, ◌<◌, length, Ok, Some, None, false, OnOk, IfOk, IfErr, Decides};
ghost use Rattle.std.specs.FinMap as map;
ghost use Rattle.cfg_tree.specs.Typed.{IsTypedPath};
ghost use Rattle.cfg_tree.specs.Tree.{IsTree};
ghost use Rattle.cfg_tree.specs.Change.{put_at, IsReady, FitsProfile};
ghost use Rattle.edit_ops.specs.Value.{is_many_at, no_value, value_set};
ghost use Rattle.edit_ops.specs.Change.{with_level, with_levels, set_of};
ghost use Rattle.edit_ops.specs.Made.{IsTarget, IsPartMade, IsReordered, IsLevelReady, IsRoomFault, IsLevelsFault, IsOther, IsNewStatement, IsItself, IsEnough, LevelsPut};

use crate::fault::EditFault;
use crate::guard::guard;
use crate::words::{is_many, words_set};
use cfg_base::{NoMemory, Path, Value, WordList, Words};
use cfg_resolve::Target;
use cfg_tree::Tree;
use std::alloc::Global;

fn no_value(alloc: Global) -> Value
    ensures { result ≡ no_value }
{
    Value {
        inactive: false,
        protected: false,
        order: WordList::new(alloc),
        words: WordList::new(alloc),
    }
}

fn put(tree: &mut Tree, path: &Path, value: Value) -> Result<(), EditFault>
    requires ready { IsReady tree.old path.now value }
    requires fits { FitsProfile path.now value }
    ensures ok { OnOk result (tree.new ≡ put_at tree.old path.now value) }
    ensures err { IfErr result (IsRoomFault tree.old path.now) }
{
    match tree.put(path, value) {
        Ok(()) => Ok(()),
        Err(fault) => Err(EditFault::from(fault)),
    }
}

fn put_level(alloc: Global, tree: &mut Tree, path: &Path) -> Result<(), EditFault>
    requires { IsLevelReady tree.old path.now }
    ensures ok { OnOk result (tree.new ≡ with_level tree.old path.now) }
    ensures err { IfErr result (IsRoomFault tree.old path.now) }
{
    match tree.at(path) {
        Some(_) => Ok(()),
        None => put(tree, path, no_value(alloc)),
    }
}

pub fn put_levels(alloc: Global, tree: &mut Tree, path: &Path) -> Result<(), EditFault>
    requires steps { 0 < length path.now }
    requires typed { IsTypedPath path.now }
    ensures ok { OnOk result (LevelsPut tree.old tree.new (length path.now - 1) path.now) }
    ensures err { IfErr result (IsLevelsFault tree.old (length path.now - 1) path.now) }
{
    for k in 0..path.steps().len() - 1 {
        let above = path.prefix(k + 1)?;
        if let Err(fault) = put_level(alloc, tree, &above) {
            return Err(fault);
        }
    }
    Ok(())
}

fn has(tree: &Tree, path: &Path, value: &Value) -> bool
    ensures { Decides result (map.get tree.now path.now ≡ Some value.now) }
{
    match tree.at(path) {
        Some(there) => there == value,
        None => false,
    }
}

/// The statements with another value at a path that is there. Where the statement itself is spared, its own
/// protection doesn't keep it.
pub fn replace(
    tree: &Tree,
    path: &Path,
    value: Value,
    spared: bool,
) -> Result<Option<Tree>, EditFault>
    requires tree { IsTree tree.now }
    requires other { IsOther tree.now path.now value }
    ensures { IsPartMade tree.now (Ok (put_at tree.now path.now value)) (IsItself spared path.now) result }
{
    if has(tree, path, &value) {
        return Ok(None);
    }
    if let Err(fault) = guard(tree, path, spared) {
        return Err(fault);
    }
    let mut next = tree.copy()?;
    next.replace(path, value)?;
    Ok(Some(next))
}

/// The statements with another order at a path that is there.
pub fn reorder(
    tree: &Tree,
    path: &Path,
    old: &Value,
    value: Value,
) -> Result<Option<Tree>, EditFault>
    requires tree { IsTree tree.now }
    requires reordered { IsReordered tree.now path.now old.now value }
    ensures { IsPartMade tree.now (Ok (put_at tree.now path.now value)) (λ _. ⊥) result }
{
    if *old == value {
        return Ok(None);
    }
    if let Err(fault) = guard(tree, path, false) {
        return Err(fault);
    }
    let mut next = tree.copy()?;
    match put(&mut next, path, value) {
        Ok(()) => Ok(Some(next)),
        Err(fault) => Err(fault),
    }
}

/// The statements with a new one, and the levels above it.
fn add(alloc: Global, tree: &Tree, path: &Path, value: Value) -> Result<Option<Tree>, EditFault>
    requires tree { IsTree tree.now }
    requires new { IsNewStatement tree.now path.now value }
    ensures { IsPartMade tree.now (Ok (put_at (with_levels tree.now (length path.now - 1) path.now) path.now value)) (λ _. ⊥) result }
{
    if let Err(fault) = guard(tree, path, false) {
        return Err(fault);
    }
    let mut next = tree.copy()?;
    if let Err(fault) = put_levels(alloc, &mut next, path) {
        return Err(fault);
    }
    match put(&mut next, path, value) {
        Ok(()) => Ok(Some(next)),
        Err(fault) => Err(fault),
    }
}

fn value_set(alloc: Global, path: &Path, old: &Value, given: &Words) -> Result<Value, NoMemory>
    ensures { IfOk result (λ value. value ≡ value_set path.now old.now given.now) }
{
    Ok(Value {
        inactive: old.inactive,
        protected: old.protected,
        order: old.order.clone()?,
        words: words_set(alloc, is_many(path), &old.words, given)?,
    })
}

/// Whether the statement is a Many whose list is as long as before, so that it gets no word.
fn adds_none(path: &Path, old: &Value, value: &Value) -> bool
    ensures { result ≡ (is_many_at path.now && (length value.now.words == length old.now.words)) }
{
    is_many(path) && value.words.len() == old.words.len()
}

/// The statements with the target and the levels above it.
pub fn set(alloc: Global, tree: &Tree, target: &Target) -> Result<Option<Tree>, EditFault>
    requires target { IsTarget target.now }
    requires enough { IsEnough target.now }
    ensures { IsPartMade tree.now (Ok (set_of tree.now target.now.path target.now.words)) (λ _. ⊥) result }
{
    match tree.at(&target.path) {
        Some(old) => {
            let value = value_set(alloc, &target.path, old, &target.words)?;
            if adds_none(&target.path, old, &value) {
                return Ok(None);
            }
            replace(tree, &target.path, value, false)
        }
        None => {
            let value = value_set(alloc, &target.path, &no_value(alloc), &target.words)?;
            add(alloc, tree, &target.path, value)
        }
    }
}
