//! Putting statements next to others in the user's order.

ghost use Rattle.std.specs.Prelude.{◌≡◌, ◌<◌, ◌++◌, ◌∷◌, [], length, OnOk, IfOk, IfErr, if◌then◌else◌};
ghost use Rattle.cfg_schema.specs.Profile.{same_word};
ghost use Rattle.cfg_tree.specs.Statements.{last_of};
ghost use Rattle.cfg_tree.specs.Tree.{IsTree};
ghost use Rattle.edit_ops.specs.Change.{insert_causes, inserted_at, beside, moved_beside};
ghost use Rattle.edit_ops.specs.Made.{IsBesidePath, IsPartMade, IsCause, IsUnrefused};

use crate::asked::parent_of;
use crate::fault::EditFault;
use crate::moves::is_name_for;
use crate::set::reorder;
use cfg_base::{NoMemory, Path, Value, Word, WordList};
use cfg_tree::{Tree, is_ordered};
use std::alloc::Global;

/// Puts a name and its anchor at the end.
fn push_beside(
    names: &mut WordList,
    before: bool,
    name: &Word,
    anchor: &Word,
) -> Result<(), NoMemory>
    ensures { OnOk result (names.new ≡ names.old ++ beside before name.now anchor.now) }
{
    if before {
        names.push(name.clone()?)?;
        names.push(anchor.clone()?)
    } else {
        names.push(anchor.clone()?)?;
        names.push(name.clone()?)
    }
}

/// Puts a name that stays at the end, with the one that moves next to it where it is the anchor.
fn push_stayed(
    names: &mut WordList,
    before: bool,
    name: &Word,
    anchor: &Word,
    other: &Word,
) -> Result<(), NoMemory>
    ensures { OnOk result (names.new ≡ names.old
        ++ (if same_word anchor.now other.now then beside before name.now anchor.now else other.now ∷ [])) }
{
    if anchor.as_bytes() == other.as_bytes() {
        push_beside(names, before, name, anchor)
    } else {
        names.push(other.clone()?)
    }
}

/// The names with one of them put next to another.
fn moved_beside(
    alloc: Global,
    names: &WordList,
    before: bool,
    name: &Word,
    anchor: &Word,
) -> Result<WordList, NoMemory>
    ensures { IfOk result (λ moved. moved ≡ moved_beside before name.now anchor.now names.now) }
{
    if name.as_bytes() == anchor.as_bytes() {
        return Ok(names.clone()?);
    }
    let mut moved = WordList::new(alloc);
    let mut left = names.iter();
    while let Some(other) = left.next() {
        if name.as_bytes() != other.as_bytes() {
            push_stayed(&mut moved, before, name, anchor, other)?;
        }
    }
    Ok(moved)
}

/// The first cause for which a statement isn't put next to another one.
fn refuse_insert(tree: &Tree, path: &Path, anchor: &Path) -> Result<(), EditFault>
    ensures ok { OnOk result (IsUnrefused (insert_causes tree.now path.now anchor.now)) }
    ensures tree { OnOk result (IsTree tree.now) }
    ensures err { IfErr result (IsCause (insert_causes tree.now path.now anchor.now)) }
{
    if !is_name_for(path, anchor) {
        return Err(EditFault::NotNamed(path.clone()?));
    }
    if !is_ordered(path) {
        return Err(EditFault::NotOrdered(path.clone()?));
    }
    if tree.at(path).is_none() {
        return Err(EditFault::NotThere(path.clone()?));
    }
    if tree.at(anchor).is_none() {
        return Err(EditFault::NotThere(anchor.clone()?));
    }
    Ok(())
}

fn last_name(path: &Path) -> &Word
    requires { 0 < length path.now }
    ensures { result.now ≡ (last_of path.now).name }
{
    let steps = path.steps();
    &steps[steps.len() - 1].name
}

/// A value with the name of a path next to that of another one in its order.
fn with_moved(
    alloc: Global,
    value: &Value,
    before: bool,
    path: &Path,
    anchor: &Path,
) -> Result<Value, NoMemory>
    requires path { 0 < length path.now }
    requires anchor { 0 < length anchor.now }
    ensures { IfOk result (λ moved. moved ≡ record value.now {
      order = moved_beside before (last_of path.now).name (last_of anchor.now).name value.now.order;
    }) }
{
    Ok(Value {
        inactive: value.inactive,
        protected: value.protected,
        order: moved_beside(
            alloc,
            &value.order,
            before,
            last_name(path),
            last_name(anchor),
        )?,
        words: value.words.clone()?,
    })
}

/// The statements with one before or after another in the user's order.
pub fn insert(
    alloc: Global,
    tree: &Tree,
    path: &Path,
    before: bool,
    anchor: &Path,
) -> Result<Option<Tree>, EditFault>
    requires { IsBesidePath path.now anchor.now }
    ensures { IsPartMade tree.now (inserted_at tree.now before path.now anchor.now) (λ _. ⊥) result }
{
    if let Err(fault) = refuse_insert(tree, path, anchor) {
        return Err(fault);
    }
    let parent = parent_of(path)?;
    match tree.at(&parent) {
        None => Ok(None),
        Some(old) => {
            let value = with_moved(alloc, old, before, path, anchor)?;
            reorder(tree, &parent, old, value)
        }
    }
}
