//! The rule of VLAN tags: an interface with one has `vlan-tagging`.

ghost use Rattle.std.specs.Prelude.{◌≡◌, IfOk};
ghost use Rattle.commit_check.specs.Tests.{lacks_tagging};

use crate::kinds::is_vlan_id;
use crate::lookup::has_child;
use cfg_base::{NoMemory, Path};
use cfg_tree::Full;
use std::alloc::Global;

/// Whether a path is that of a `vlan-id` at an interface without `vlan-tagging`.
pub fn lacks_tagging(alloc: Global, full: &Full, path: &Path) -> Result<bool, NoMemory>
    ensures { IfOk result (λ told. told ≡ lacks_tagging full.now path.now) }
{
    if !is_vlan_id(path) {
        return Ok(false);
    }
    let interface = path.prefix(2)?;
    Ok(!has_child(alloc, full, &interface, 35)?)
}
