//! Puts and removals of one statement, without the levels above it and without a look at marks.

ghost use Rattle.std.specs.Prelude.{◌≡◌, ◌<◌, [], length, IfOk, IsTrue, MatchOption};
ghost use Rattle.std.specs.Prelude.{Some};
ghost use Rattle.std.specs.FinMap as map;
ghost use Rattle.cfg_schema.specs.declared.place.Place.{Place};
ghost use Rattle.cfg_schema.specs.Place.{place_of};
ghost use Rattle.cfg_schema.specs.Profile.{row_of};
ghost use Rattle.cfg_tree.specs.Change.{IsReady};
ghost use Rattle.cfg_tree.specs.Children.{order_in};
ghost use Rattle.cfg_tree.specs.Statements.{HasParent, parent_of};
ghost use Rattle.cfg_tree.specs.Tree.{IsTree};
ghost use Rattle.cfg_tree.specs.Typed.{AreCounted};
ghost use Rattle.cfg_resolve.specs.Resolve.{IsTargetBelow};

use crate::level::resolved;
use cfg_base::{NoMemory, Path, Shape, Value, WordList, Words};
use cfg_resolve::Target;
use cfg_schema::{Place, row};
use cfg_tree::{Tree, TreeFault};
use script_lines::{Arg, Fault, Text, say, say_number, words_of};
use std::alloc::Global;

/// The statement that words name from the top.
fn target_of(alloc: Global, args: &[Arg]) -> Result<Target, Fault>
    ensures { IfOk result (λ found. IsTargetBelow [] found) }
{
    let words = words_of(alloc, args)?;
    match resolved(alloc, &words) {
        Ok(target) => Ok(target),
        Err(_) => Err(Fault::Script("the words name a statement")),
    }
}

/// The path without its last step.
fn parent_of(path: &Path) -> Result<Path, NoMemory>
    requires { 0 < length path.now }
    ensures { IfOk result (λ parent. parent ≡ parent_of path.now) }
{
    path.prefix(path.steps().len() - 1)
}

fn has_parent(tree: &Tree, path: &Path) -> Result<bool, NoMemory>
    requires { 0 < length path.now }
    ensures { IfOk result (λ answer. IsTrue answer → HasParent tree.now path.now) }
{
    if path.steps().len() == 1 {
        return Ok(true);
    }
    let parent = parent_of(path)?;
    Ok(tree.at(&parent).is_some())
}

/// As many words as a statement of the shape has; of a Many none are put.
fn are_counted(shape: Shape, words: &Words) -> bool
    ensures { IsTrue result → AreCounted shape words.now }
{
    match shape {
        Shape::Many => false,
        Shape::Leaf => words.as_slice().len() == 1,
        Shape::Container | Shape::Fixed | Shape::Keyed | Shape::Bare | Shape::Flag => {
            words.as_slice().is_empty()
        }
    }
}

fn is_counted(path: &Path, words: &Words) -> bool
    ensures { IsTrue result → (here : Place) → place_of path.now ≡ Some here → AreCounted (row_of here.row).shape words.now }
{
    match Place::of(path.steps()) {
        None => false,
        Some(here) => are_counted(row(here.row).shape, words),
    }
}

fn order_there(alloc: Global, tree: &Tree, path: &Path) -> Result<WordList, NoMemory>
    ensures order { IfOk result (λ order. order ≡ order_in (map.get tree.now path.now)) }
    ensures tree { IsTree tree.now }
{
    match tree.at(path) {
        Some(value) => Ok(value.order.clone()?),
        None => Ok(WordList::new(alloc)),
    }
}

/// A value with the target's words, where it is ready to be put.
fn ready_value(alloc: Global, tree: &Tree, target: &Target) -> Result<Option<Value>, NoMemory>
    requires { IsTargetBelow [] target.now }
    ensures { IfOk result (λ value. MatchOption value (Unit {0}) (λ v. IsReady tree.now target.now.path v)) }
{
    if !has_parent(tree, &target.path)? {
        return Ok(None);
    }
    if !is_counted(&target.path, &target.words) {
        return Ok(None);
    }
    let order = order_there(alloc, tree, &target.path)?;
    let words = WordList::of(alloc, target.words.as_slice())?;
    Ok(Some(Value {
        inactive: false,
        protected: false,
        order,
        words,
    }))
}

fn say_put(out: &mut Text, put: &Result<(), TreeFault>) {
    match put {
        Ok(()) => say(out, "put"),
        Err(TreeFault::TooMany) => say(out, "too many"),
        Err(TreeFault::NoMemory) => out.lacks_memory(),
        Err(TreeFault::Unknown(_)) => say(out, "unknown"),
        Err(TreeFault::BadValue(_)) => say(out, "bad value"),
    }
}

fn put_target(alloc: Global, tree: &mut Tree, target: &Target, out: &mut Text)
    requires { IsTargetBelow [] target.now }
{
    match ready_value(alloc, tree, target) {
        Ok(Some(value)) => say_put(out, &tree.put(&target.path, value)),
        Ok(None) => say(out, "not ready"),
        Err(NoMemory) => out.lacks_memory(),
    }
}

/// put WORDS..
fn put(alloc: Global, tree: &mut Tree, args: &[Arg], out: &mut Text) -> Result<(), Fault> {
    let target = target_of(alloc, args)?;
    put_target(alloc, tree, &target, out);
    Ok(())
}

/// remove WORDS..
fn remove(alloc: Global, tree: &mut Tree, args: &[Arg], out: &mut Text) -> Result<(), Fault> {
    let target = target_of(alloc, args)?;
    say_number(out, u64::from(tree.remove(&target.path)?));
    Ok(())
}

/// Puts or removes a statement, where the call is one of the two.
pub(crate) fn ask(
    alloc: Global,
    tree: &mut Tree,
    call: &str,
    args: &[Arg],
    out: &mut Text,
) -> Option<Result<(), Fault>> {
    Some(match call {
        "put" => put(alloc, tree, args, out),
        "remove" => remove(alloc, tree, args, out),
        _ => return None,
    })
}
