//! The rule of external neighbors: each has `peer-as`, at itself or its group.

ghost use Rattle.std.specs.Prelude.{◌≡◌, ◌<◌, take, length, IfOk};
ghost use Rattle.cfg_base.specs.declared.path.TheConstants.{MAX_STEPS};
ghost use Rattle.commit_check.specs.Tests.{lacks_peer_as, is_external, has_peer_as};

use crate::kinds::is_neighbor;
use crate::lookup::{child, has_child};
use cfg_base::{NoMemory, Path, Word};
use cfg_tree::Full;
use std::alloc::Global;

/// Whether a group's type is external.
fn is_external(alloc: Global, full: &Full, group: &Path) -> Result<bool, NoMemory>
    requires { length group.now < MAX_STEPS }
    ensures { IfOk result (λ told. told ≡ is_external full.now group.now) }
{
    let external = Word::short(alloc, b"external")?;
    let path = child(alloc, group, 54)?;
    match full.at(&path) {
        Some(kind) => Ok(kind.words.has(&external)),
        None => Ok(false),
    }
}

fn has_peer_as(alloc: Global, full: &Full, group: &Path, neighbor: &Path) -> Result<bool, NoMemory>
    requires group { length group.now < MAX_STEPS }
    requires neighbor { length neighbor.now < MAX_STEPS }
    requires of { group.now ≡ take 3 neighbor.now }
    ensures { IfOk result (λ told. told ≡ has_peer_as full.now neighbor.now) }
{
    if has_child(alloc, full, neighbor, 63)? {
        return Ok(true);
    }
    has_child(alloc, full, group, 58)
}

/// Whether a path is that of an external neighbor without `peer-as`.
#[tactic(auto, using(crate::proofs::StartLemmas::neighbor_long))]
pub fn lacks_peer_as(alloc: Global, full: &Full, path: &Path) -> Result<bool, NoMemory>
    ensures { IfOk result (λ told. told ≡ lacks_peer_as full.now path.now) }
{
    if !is_neighbor(path) {
        return Ok(false);
    }
    let group = path.prefix(3)?;
    if !is_external(alloc, full, &group)? {
        return Ok(false);
    }
    Ok(!has_peer_as(alloc, full, &group, path)?)
}
