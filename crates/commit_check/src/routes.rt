//! The rule of routes: each has exactly one of `next-hop` and `discard`.

ghost use Rattle.std.specs.Prelude.{◌≡◌, IfOk};
ghost use Rattle.commit_check.specs.Tests.{lacks_one_way};

use crate::kinds::is_route;
use crate::lookup::has_child;
use cfg_base::{NoMemory, Path};
use cfg_tree::Full;
use std::alloc::Global;

/// Whether a path is that of a route with both `next-hop` and `discard`, or with neither.
#[tactic(auto, using(crate::proofs::StartLemmas::route_short))]
pub fn lacks_one_way(alloc: Global, full: &Full, path: &Path) -> Result<bool, NoMemory>
    ensures { IfOk result (λ told. told ≡ lacks_one_way full.now path.now) }
{
    if !is_route(path) {
        return Ok(false);
    }
    let next_hop = has_child(alloc, full, path, 46)?;
    let discard = has_child(alloc, full, path, 47)?;
    Ok(next_hop == discard)
}
