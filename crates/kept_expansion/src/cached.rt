//! A kept expansion.

ghost use Rattle.std.specs.Prelude.{◌≡◌, ◌<◌, ◌≤◌, IfOk, IfSome, OnOk, OnErr, IsErrOf, None};
ghost use Rattle.std.specs.FinMap as map;
ghost use Rattle.std.specs.Option.{option_copied};
ghost use Rattle.cfg_tree.specs.Full.{Expansion};
ghost use Rattle.cfg_tree.specs.declared.limit.TheConstants.{MAX_EXPANDED};
ghost use Rattle.group_expand.specs.Expansion.{IsExpansion};
ghost use Rattle.kept_expansion.specs.Changes.{IsBehind, IsKept};

use crate::update::updated;
use cfg_base::Path;
use cfg_tree::{Full, Tree};
use group_expand::{ExpandFault, expand};
use std::alloc::Global;
use std::marker::Model;

/// The expansion of the configuration that was given last, and none where that was refused.
#[derive(Debug, Drop)]
pub struct Cached {
    full: Option<Full>,
}

impl Model for Cached {
    ghost use Rattle.std.specs.Prelude.{Option};
    ghost use Rattle.std.specs.Coded.{codes};
    ghost use Rattle.cfg_tree.specs.Full.{Expansion, expansion_code};

    ghost Value = { Option Expansion };

    ghost coded = { Prim.hlevel (codes, expansion_code) };

    ghost view = { λ c. c.full };
}

/// The expansion of a configuration that follows one whose expansion is at hand, if it is.
fn following(
    alloc: Global,
    last: Option<Full>,
    tree: &Tree,
    touched: &[Path],
) -> Result<Full, ExpandFault>
    requires { IfSome last (λ full. IsBehind full tree.now touched.now) }
    ensures ok { IfOk result (λ made. IsExpansion tree.now made) }
    ensures within { IfOk result (λ made. map.len made ≤ MAX_EXPANDED) }
    ensures wide { IsErrOf result ExpandFault.TooWide → (made : Expansion) × IsExpansion tree.now made × (MAX_EXPANDED < map.len made) }
{
    match last {
        None => expand(alloc, tree),
        Some(full) => updated(alloc, &full, tree, touched),
    }
}

impl Cached {
    /// The expansion of a configuration, to be kept. `TooWide` where it would have more than 65,536 paths.
    pub fn new(alloc: Global, tree: &Tree) -> Result<Cached, ExpandFault>
        ensures ok { IfOk result (IsKept tree.now) }
        ensures wide { IsErrOf result ExpandFault.TooWide → (full : Expansion) × IsExpansion tree.now full × (MAX_EXPANDED < map.len full) }
    {
        match expand(alloc, tree) {
            Ok(full) => Ok(Cached { full: Some(full) }),
            Err(fault) => Err(fault),
        }
    }

    /// Keeps the expansion of a configuration that differs from the last one only at and below the touched paths. Where
    /// nothing was kept, they say nothing. `TooWide` where it would have more than 65,536 paths.
    pub fn update(
        &mut self,
        alloc: Global,
        tree: &Tree,
        touched: &[Path],
    ) -> Result<(), ExpandFault>
        requires { IfSome self.old (λ full. IsBehind full tree.now touched.now) }
        ensures ok { OnOk result (IsKept tree.now self.new) }
        ensures err { OnErr result (self.new ≡ None) }
        ensures wide { IsErrOf result ExpandFault.TooWide → (full : Expansion) × IsExpansion tree.now full × (MAX_EXPANDED < map.len full) }
    {
        match following(alloc, self.full.take(), tree, touched) {
            Ok(full) => {
                self.full = Some(full);
                Ok(())
            }
            Err(fault) => Err(fault),
        }
    }

    /// The expansion that is kept.
    pub fn full(&self) -> Option<&Full>
        ensures { option_copied result ≡ self.now }
    {
        self.full.as_ref()
    }
}
