ghost use Rattle.std.specs.Prelude.{◌≡◌, ◌≤◌, ◌+◌, ◌↔◌, OnOk, OnErr, IfOk, IfErr, IsTrue, MatchOption, [], ◌∷◌, ◌++◌, filter, is_some};
ghost use Rattle.std.specs.Ordering.{eq_by_cmp, is_le};
ghost use Rattle.cfg_base.specs.Order.{path_cmp, step_cmp};
ghost use Rattle.cfg_base.specs.declared.path.Step.{Step};
ghost use Rattle.std.specs.Option.{option_copied};
ghost use Rattle.std.specs.FinMap as map;
ghost use Rattle.cfg_tree.specs.Shown.{shown};
ghost use Rattle.cfg_tree.specs.Statements.{Statements, size_of};
ghost use Rattle.cfg_tree.specs.Tree.{IsTree, IsStatementMap, IsTyped};
ghost use Rattle.cfg_tree.specs.Gather.{gathered_from_none, IsGatherFault};
ghost use Rattle.cfg_tree.specs.Limit.{paths_of, different};
ghost use Rattle.cfg_tree.specs.Stated.{stated_from_none, AreSaid};
ghost use Rattle.cfg_tree.specs.declared.limit.TheConstants.{MAX_STATEMENTS};
ghost use Rattle.cfg_tree.specs.After.{IsNext, IsLast};
ghost use Rattle.cfg_tree.specs.Children.{step_if, children_of};
ghost use Rattle.cfg_tree.specs.Moving.{IsNewName, IsCopyFault, renamed, copied};
ghost use Rattle.cfg_tree.specs.Change.{put_at, removed, IsReady, IsPut, IsPutFault, IsOther};

use crate::after::next_in;
use crate::change::{put_in, remove_in, replace_in};
use crate::children::children_in;
use crate::excess::statement_past_limit;
use crate::fault::TreeFault;
use crate::gather::{GatherFault, gathered_in};
use crate::moving::{CopyFault, copy_in, rename_in};
use crate::naming::with_child_names;
use crate::sharing::made_beside;
use crate::steps::Steps;
use crate::store::Entries;
use crate::walk::Walk;
use cfg_base::{NoMemory, Path, Value};
use std::alloc::Global;
use std::marker::Model;

/// The statements of a configuration: a map from paths to values.
#[derive(Debug, Drop)]
pub struct Tree {
    alloc: Global,
    statements: Entries,
}

impl Model for Tree {
    ghost use Rattle.std.specs.FinMap as map;
    ghost use Rattle.cfg_tree.specs.Statements.{Statements, statements_code};
    ghost use Rattle.cfg_tree.specs.Tree.{IsTree};

    ghost Value = { Statements };

    ghost coded = { statements_code };

    ghost view = { λ t. map.from_entries t.statements.entries };

    ghost invariant = { λ t. IsTree (map.from_entries t.statements.entries) };
}

impl Tree {
    /// The tree of these entries.
    pub(crate) fn of_entries(alloc: Global, statements: Entries) -> Tree
        requires { IsTree (shown statements) }
        ensures { result ≡ shown statements }
    {
        Tree { alloc, statements }
    }

    /// What it is made of.
    pub(crate) fn entries(&self) -> &Entries
        ensures shown { shown result.now ≡ self.now }
        ensures tree { IsTree self.now }
    {
        &self.statements
    }

    /// The same, of a tree that is done with.
    pub(crate) fn into_entries(self) -> Entries
        ensures shown { shown result ≡ self }
        ensures tree { IsTree self }
    {
        self.statements
    }

    /// No statements.
    pub fn empty(alloc: Global) -> Tree
        ensures { result ≡ map.empty }
    {
        Tree {
            alloc,
            statements: Entries::new(alloc),
        }
    }

    /// The tree of statements in the order in which they are met, each joined to what its path has. An
    /// item's order is what it adds to that of its children: a child of an ordered row is two items, its own,
    /// and one of its parent with this name. Statements that the older tree has too are shared with it.
    pub fn gathered(
        alloc: Global,
        older: &Tree,
        items: Vec<(Path, Value)>,
    ) -> Result<Tree, GatherFault>
        requires statements { IsStatementMap (gathered_from_none items.items) }
        requires typed { IsTyped (gathered_from_none items.items) }
        ensures ok { IfOk result (λ tree. tree ≡ gathered_from_none items.items) }
        ensures err { IfErr result (λ fault. IsGatherFault items.items fault) }
    {
        if let Some(at) = statement_past_limit(alloc, &items)? {
            return Err(GatherFault::TooMany(at));
        }
        let statements = gathered_in(alloc, &older.statements, items)?;
        Ok(Tree { alloc, statements })
    }

    /// The tree of statements in the order in which a text says them, each joined to what its path has. The
    /// name of a new ordered child goes last. Statements that the older tree has too are shared with it.
    pub fn of_statements(
        alloc: Global,
        older: &Tree,
        items: Vec<(Path, Value)>,
    ) -> Result<Tree, NoMemory>
        requires said { AreSaid map.empty items.items }
        requires few { different (paths_of items.items) ≤ MAX_STATEMENTS }
        ensures { IfOk result (λ tree. tree ≡ stated_from_none items.items) }
    {
        let items = with_child_names(alloc, items)?;
        let statements = gathered_in(alloc, &older.statements, items)?;
        Ok(Tree { alloc, statements })
    }

    /// The value at a path, where it is there.
    pub fn at(&self, path: &Path) -> Option<&Value>
        ensures value { option_copied result ≡ map.get self.now path.now }
        ensures tree { IsTree self.now }
    {
        self.statements.get(path)
    }

    /// How many statements there are.
    pub fn count(&self) -> u32
        ensures count { result ≡ size_of self.now }
        ensures tree { IsTree self.now }
    {
        self.statements.len() as u32
    }

    /// Whether two trees have the same statements.
    pub fn same(&self, other: &Tree) -> bool
        ensures { IsTrue result ↔ (self.now ≡ other.now) }
    {
        let alike = self.statements.len() == other.statements.len();
        alike && self.statements.same(&other.statements)
    }

    /// A copy of the tree.
    pub fn copy(&self) -> Result<Tree, NoMemory>
        ensures { IfOk result (λ tree. tree ≡ self.now) }
    {
        let statements = self.statements.clone()?;
        Ok(Tree {
            alloc: self.alloc,
            statements,
        })
    }

    /// The same tree, made anew: it shares with the older one what is equal in both, page by page.
    pub fn beside(&self, alloc: Global, older: &Tree) -> Result<Tree, NoMemory>
        ensures { IfOk result (λ tree. tree ≡ self.now) }
    {
        let statements = made_beside(alloc, &older.statements, self)?;
        Ok(Tree { alloc, statements })
    }

    /// Puts a value at a path whose parent is there.
    pub fn put(&mut self, path: &Path, value: Value) -> Result<(), TreeFault>
        requires { IsReady self.old path.now value }
        ensures ok { OnOk result (IsPut self.old self.new path.now value) }
        ensures err { IfErr result (λ fault. IsPutFault self.old path.now value fault) }
        ensures unchanged { OnErr result (self.new ≡ self.old) }
    {
        put_in(self.alloc, &mut self.statements, path, value)
    }

    /// Gives a statement that is there another value, none of whose words is read again.
    pub fn replace(&mut self, path: &Path, value: Value) -> Result<(), NoMemory>
        requires { IsOther self.old path.now value }
        ensures ok { OnOk result (self.new ≡ put_at self.old path.now value) }
        ensures unchanged { OnErr result (self.new ≡ self.old) }
    {
        replace_in(self.alloc, &mut self.statements, path, value)
    }

    /// Takes a path and all below it away, and reports how many paths went.
    pub fn remove(&mut self, path: &Path) -> Result<u32, NoMemory>
        ensures ok { OnOk result (self.new ≡ removed self.old path.now) }
        ensures count { IfOk result (λ count. count + size_of self.new ≡ size_of self.old) }
        ensures unchanged { OnErr result (self.new ≡ self.old) }
    {
        remove_in(self.alloc, &mut self.statements, path)
    }

    /// Gives a statement, with all below it, another name of its row. It keeps its place in its parent's order.
    pub fn rename_statement(&mut self, from: &Path, to: &Path) -> Result<(), NoMemory>
        requires { IsNewName self.old from.now to.now }
        ensures ok { OnOk result (self.new ≡ renamed self.old from.now to.now) }
        ensures unchanged { OnErr result (self.new ≡ self.old) }
    {
        rename_in(self.alloc, &mut self.statements, from, to)
    }

    /// Copies a statement, with all below it and all marks, to another name of its row, which goes last in its parent's
    /// order.
    pub fn copy_statement(&mut self, from: &Path, to: &Path) -> Result<(), CopyFault>
        requires { IsNewName self.old from.now to.now }
        ensures ok { OnOk result (self.new ≡ copied self.old from.now to.now) }
        ensures err { IfErr result (IsCopyFault self.old from.now to.now) }
        ensures unchanged { OnErr result (self.new ≡ self.old) }
    {
        copy_in(self.alloc, &mut self.statements, from, to)
    }

    /// The steps of the children of a path, in printing order.
    pub fn children(&self, path: &Path) -> Result<Steps, NoMemory>
        ensures order { IfOk result (λ steps. steps ≡ children_of self.now path.now) }
        ensures once { IfOk result (λ steps. (step : Step) → filter (eq_by_cmp step_cmp step) steps
            ≡ step_if (is_some (map.get self.now (path.now ++ step ∷ []))) step) }
    {
        let steps = children_in(self.alloc, &self.statements, path)?;
        Ok(Steps::from(steps))
    }

    /// All statements, in the order of paths.
    pub fn walk(&self) -> Walk<'_>
        ensures { result ≡ map.entries self.now }
    {
        Walk::of(self.statements.iter())
    }

    /// The statements at a path and after it, in the order of paths.
    pub fn walk_from(&self, path: &Path) -> Walk<'_>
        ensures { result ≡ filter (λ e. is_le (path_cmp path.now e.0)) (map.entries self.now) }
    {
        Walk::of(self.statements.from(path))
    }

    /// The first statement after a path in the order of paths, where one stands there.
    pub fn next(&self, path: &Path) -> Option<(&Path, &Value)>
        ensures { MatchOption result (IsLast self.now path.now)
            (λ found. IsNext self.now path.now found.0.now found.1.now) }
    {
        next_in(&self.statements, path)
    }
}
