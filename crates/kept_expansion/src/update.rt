//! The expansion of a configuration that differs little from one whose expansion is at hand.

ghost use Rattle.std.specs.Prelude.{◌<◌, ◌≤◌, IfOk, IfSome, IsErrOf};
ghost use Rattle.std.specs.FinMap as map;
ghost use Rattle.std.specs.List.{AllByRecursion};
ghost use Rattle.cfg_tree.specs.Full.{Expansion, IsWithin};
ghost use Rattle.cfg_tree.specs.declared.limit.TheConstants.{MAX_EXPANDED};
ghost use Rattle.group_expand.specs.Expansion.{IsExpansion};
ghost use Rattle.kept_expansion.specs.Changes.{IsBehind};
ghost use Rattle.kept_expansion.specs.Roots.{IsRoot};

use crate::part::part_of;
use crate::roots::local_roots;
use crate::splice::spliced;
use cfg_base::{NoMemory, Path};
use cfg_tree::{Full, Tree};
use group_expand::{ExpandFault, expand, expand_beside};
use std::alloc::Global;

/// The expansion of a configuration that changed at and below some roots, by that of a part of it, where there is room.
fn by_part(
    alloc: Global,
    full: &Full,
    tree: &Tree,
    roots: &[Path],
) -> Result<Option<Full>, NoMemory>
    requires behind { IsBehind full.now tree.now roots.now }
    requires roots { AllByRecursion IsRoot roots.now }
    ensures is { IfOk result (λ made. IfSome made (IsExpansion tree.now)) }
    ensures within { IfOk result (λ made. IfSome made IsWithin) }
{
    let Some(part) = part_of(alloc, tree, roots)? else {
        return Ok(None);
    };
    match expand(alloc, &part) {
        Ok(part) => spliced(full, &part, roots),
        Err(ExpandFault::TooWide) => Ok(None),
        Err(ExpandFault::NoMemory) => Err(NoMemory),
    }
}

/// The same of touched paths, where all of them are local.
fn locally(
    alloc: Global,
    full: &Full,
    tree: &Tree,
    touched: &[Path],
) -> Result<Option<Full>, NoMemory>
    requires { IsBehind full.now tree.now touched.now }
    ensures is { IfOk result (λ made. IfSome made (IsExpansion tree.now)) }
    ensures within { IfOk result (λ made. IfSome made IsWithin) }
{
    match local_roots(alloc, touched)? {
        None => Ok(None),
        Some(roots) => by_part(alloc, full, tree, &roots),
    }
}

/// The expansion of a configuration that differs from one whose expansion is at hand only at and below some paths.
pub fn updated(
    alloc: Global,
    full: &Full,
    tree: &Tree,
    touched: &[Path],
) -> Result<Full, ExpandFault>
    requires { IsBehind full.now tree.now touched.now }
    ensures ok { IfOk result (λ made. IsExpansion tree.now made) }
    ensures within { IfOk result (λ made. map.len made ≤ MAX_EXPANDED) }
    ensures wide { IsErrOf result ExpandFault.TooWide → (made : Expansion) × IsExpansion tree.now made × (MAX_EXPANDED < map.len made) }
{
    match locally(alloc, full, tree, touched)? {
        Some(made) => Ok(made),
        // All of it is made anew. That also says whether it is too wide.
        None => expand_beside(alloc, tree, full),
    }
}
