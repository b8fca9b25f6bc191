//! The statements that a tree is made of at once.

ghost use Rattle.std.specs.Prelude.{◌≡◌, ◌≤◌, ◌<◌, Some, Decides, OnOk, IfOk, MatchOption, filter};
ghost use Rattle.std.specs.Ordering.{is_le};
ghost use Rattle.std.specs.FinMap as finite;
ghost use Rattle.cfg_base.specs.Order.{path_cmp};
ghost use Rattle.cfg_entries.specs.EntryMap as tree;
ghost use Rattle.cfg_entries.specs.EntryMap.{IsOrdered};
ghost use Rattle.cfg_tree.specs.Shown.{shown};
ghost use Rattle.cfg_tree.specs.Statements.{Statements, size_of};
ghost use Rattle.cfg_tree.specs.Gather.{joined_at, gathered_one, gathered};
ghost use Rattle.cfg_tree.specs.Union.{IsUnion, IsUnbounded};
ghost use Rattle.cfg_tree.specs.Values.{with_value, with_values};
ghost use Rattle.cfg_tree.specs.declared.limit.TheConstants.{MAX_STATEMENTS};

use crate::limit::MAX_STATEMENTS;
use crate::pending::Pending;
use crate::store::{Entries, put_entry, take_entry};
use crate::tree::Tree;
use crate::walk::Walk;
use cfg_base::{NoMemory, Path, Value};
use std::alloc::Global;
use std::marker::Model;

/// A path, and its value with another one joined to it.
fn joined_in(
    alloc: Global,
    entries: &Entries,
    path: &Path,
    value: &Value,
) -> Result<(Path, Value), NoMemory>
    ensures { IfOk result (λ entry. entry ≡ (path.now, joined_at path.now (tree.get path_cmp entries.now path.now) value.now)) }
{
    match entries.get(path) {
        None => Ok((path.clone()?, value.clone()?)),
        Some(old) => Pending::of(alloc, path.clone()?, old.clone()?)
            .met(value)?
            .entry(alloc),
    }
}

fn has(entries: &Entries, path: &Path, value: &Value) -> bool
    ensures { Decides result (tree.get path_cmp entries.now path.now ≡ Some value.now) }
{
    match entries.get(path) {
        Some(there) => there == value,
        None => false,
    }
}

/// Joins a value to that of a path. Where that adds nothing, nothing is made anew.
fn join_one(
    alloc: Global,
    entries: &mut Entries,
    path: &Path,
    value: &Value,
) -> Result<(), NoMemory>
    ensures { OnOk result (shown entries.new ≡ gathered_one (shown entries.old) (path.now, value.now)) }
{
    let (path, both) = joined_in(alloc, entries, path, value)?;
    if has(entries, &path, &both) {
        return Ok(());
    }
    put_entry(entries, path, both)
}

/// The statements of one map, each of another one joined to them in the order of paths.
fn joined(alloc: Global, mine: &Entries, theirs: &Entries) -> Result<Entries, NoMemory>
    ensures joins { IfOk result (λ both. shown both ≡ gathered (shown mine.now) theirs.now.entries) }
    ensures ordered { IsOrdered path_cmp theirs.now }
{
    let mut left = theirs.iter();
    let mut both = mine.clone()?;
    while let Some(entry) = left.next() {
        join_one(alloc, &mut both, entry.path(), entry.value())?;
    }
    Ok(both)
}

/// Gives a path a value, or takes it away.
fn set_value(entries: &mut Entries, path: Path, value: Option<Value>) -> Result<(), NoMemory>
    ensures { OnOk result (shown entries.new ≡ with_value (shown entries.old) path value) }
{
    match value {
        Some(value) => put_entry(entries, path, value),
        None => take_entry(entries, &path),
    }
}

/// The statements of a map, with these values at their paths.
fn revalued(entries: &Entries, values: Vec<(Path, Option<Value>)>) -> Result<Entries, NoMemory>
    ensures { IfOk result (λ made. shown made ≡ with_values (shown entries.now) values.items) }
{
    let mut made = entries.clone()?;
    for (path, value) in values {
        set_value(&mut made, path, value)?;
    }
    Ok(made)
}

/// Two maps have one union.
pub fn two_maps_have_one_union()
    ensures { (m n one other : Statements) → IsUnion m n one → IsUnion m n other → one ≡ other }
{}

/// The statements of a tree that is to be. There may be more of them than a tree has.
#[derive(Debug, Drop)]
pub struct Draft {
    alloc: Global,
    statements: Entries,
}

impl Model for Draft {
    ghost use Rattle.std.specs.FinMap as map;
    ghost use Rattle.cfg_tree.specs.Statements.{Statements, statements_code};
    ghost use Rattle.cfg_tree.specs.Union.{IsUnbounded};

    ghost Value = { Statements };

    ghost coded = { statements_code };

    ghost view = { λ d. map.from_entries d.statements.entries };

    ghost invariant = { λ d. IsUnbounded (map.from_entries d.statements.entries) };
}

impl Draft {
    /// The statements of a tree.
    pub fn of(alloc: Global, tree: Tree) -> Draft
        ensures { result ≡ tree }
    {
        Draft {
            alloc,
            statements: tree.into_entries(),
        }
    }

    /// The statements of two trees. What the second one adds is put into a copy of the first, whose other pages stay.
    pub fn union(alloc: Global, one: &Tree, other: &Tree) -> Result<Draft, NoMemory>
        ensures { IfOk result (λ both. IsUnion one.now other.now both) }
    {
        let statements = joined(alloc, one.entries(), other.entries())?;
        Ok(Draft { alloc, statements })
    }

    /// The statements of a tree, with these values at their paths; a path without one is taken away. Pages without such
    /// a path stay.
    pub fn with_values(
        alloc: Global,
        tree: &Tree,
        values: Vec<(Path, Option<Value>)>,
    ) -> Result<Draft, NoMemory>
        requires { IsUnbounded (with_values tree.now values.items) }
        ensures { IfOk result (λ draft. draft ≡ with_values tree.now values.items) }
    {
        let statements = revalued(tree.entries(), values)?;
        Ok(Draft { alloc, statements })
    }

    /// The statements at a path and after it, in the order of paths.
    pub fn walk_from(&self, path: &Path) -> Walk<'_>
        ensures { result ≡ filter (λ e. is_le (path_cmp path.now e.0)) (finite.entries self.now) }
    {
        Walk::of(self.statements.from(path))
    }

    /// The tree, where it has room for them all.
    pub fn into_tree(self) -> Option<Tree>
        ensures { MatchOption result (MAX_STATEMENTS < size_of self) (λ tree. (tree ≡ self) × (size_of tree ≤ MAX_STATEMENTS)) }
    {
        if self.statements.len() <= MAX_STATEMENTS {
            Some(Tree::of_entries(self.alloc, self.statements))
        } else {
            None
        }
    }
}
