//! A configuration with its expansion, and those that follow it.

ghost use Rattle.std.specs.Prelude.{◌≡◌, ◌<◌, ◌≤◌, IfOk, IsErrOf};
ghost use Rattle.std.specs.FinMap as map;
ghost use Rattle.cfg_tree.specs.Full.{Expansion, IsWithin};
ghost use Rattle.cfg_tree.specs.Tree.{IsTree};
ghost use Rattle.cfg_tree.specs.declared.limit.TheConstants.{MAX_EXPANDED};
ghost use Rattle.group_expand.specs.Expansion.{IsExpansion};

use crate::differing::differing;
use crate::update::updated;
use cfg_base::NoMemory;
use cfg_tree::{Full, Tree};
use group_expand::{ExpandFault, expand, expand_beside};
use std::alloc::Global;
use std::marker::Model;

/// A configuration with its expansion.
#[derive(Debug, Drop)]
pub struct Expanded {
    tree: Tree,
    full: Full,
}

impl Model for Expanded {
    ghost use Rattle.std.specs.Coded.{codes};
    ghost use Rattle.cfg_tree.specs.Statements.{Statements, statements_code};
    ghost use Rattle.cfg_tree.specs.Full.{Expansion, expansion_code, IsWithin};
    ghost use Rattle.group_expand.specs.Expansion.{IsExpansion};

    ghost Value = { Statements × Expansion };

    ghost coded = { Prim.hlevel (codes, statements_code, expansion_code) };

    ghost view = { λ e. (e.tree, e.full) };

    ghost invariant = { λ e. IsExpansion e.tree e.full × IsWithin e.full };
}

/// The expansion of a configuration, by that of another one.
fn expansion_after(alloc: Global, old: &Tree, full: &Full, tree: &Tree) -> Result<Full, ExpandFault>
    requires { IsExpansion old.now full.now }
    ensures ok { IfOk result (λ made. IsExpansion tree.now made) }
    ensures within { IfOk result (λ made. map.len made ≤ MAX_EXPANDED) }
    ensures wide { IsErrOf result ExpandFault.TooWide → (made : Expansion) × IsExpansion tree.now made × (MAX_EXPANDED < map.len made) }
{
    match differing(alloc, old, tree) {
        Ok(Some(touched)) => updated(alloc, full, tree, &touched),
        Ok(None) => expand_beside(alloc, tree, full),
        Err(NoMemory) => Err(ExpandFault::NoMemory),
    }
}

/// A configuration with its expansion, if that was made.
fn joined(tree: &Tree, full: Result<Full, ExpandFault>) -> Result<Expanded, ExpandFault>
    requires expansion { IfOk full (λ full. IsExpansion tree.now full) }
    requires within { IfOk full IsWithin }
    ensures ok { IfOk result (λ made. made.0 ≡ tree.now) }
    ensures wide { IsErrOf result ExpandFault.TooWide → IsErrOf full ExpandFault.TooWide }
{
    match full {
        Err(fault) => Err(fault),
        Ok(full) => match tree.copy() {
            Ok(tree) => Ok(Expanded { tree, full }),
            Err(NoMemory) => Err(ExpandFault::NoMemory),
        },
    }
}

impl Expanded {
    /// A configuration with its expansion. `TooWide` where that would have more than 65,536 paths.
    pub fn of(alloc: Global, tree: &Tree) -> Result<Expanded, ExpandFault>
        ensures ok { IfOk result (λ made. made.0 ≡ tree.now) }
        ensures wide { IsErrOf result ExpandFault.TooWide → (full : Expansion) × IsExpansion tree.now full × (MAX_EXPANDED < map.len full) }
    {
        joined(tree, expand(alloc, tree))
    }

    /// The same of a configuration that follows this one. Where they differ in few statements, only what these may change is
    /// expanded anew; what both expansions have is shared.
    pub fn following(&self, alloc: Global, tree: &Tree) -> Result<Expanded, ExpandFault>
        ensures ok { IfOk result (λ made. made.0 ≡ tree.now) }
        ensures wide { IsErrOf result ExpandFault.TooWide → (full : Expansion) × IsExpansion tree.now full × (MAX_EXPANDED < map.len full) }
    {
        joined(tree, expansion_after(alloc, &self.tree, &self.full, tree))
    }

    /// The expansion.
    pub fn full(&self) -> &Full
        ensures is { result.now ≡ self.now.1 }
        ensures expansion { IsExpansion self.now.0 self.now.1 }
        ensures within { IsWithin self.now.1 }
        ensures tree { IsTree self.now.0 }
    {
        let _count = self.tree.count();
        &self.full
    }

    /// The expansion, of a configuration that is done with.
    pub fn into_full(self) -> Full
        ensures { result ≡ self.1 }
    {
        let Expanded { tree: _, full } = self;
        full
    }
}
