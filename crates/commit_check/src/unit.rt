//! OSPF interfaces that name a unit which isn't there.

ghost use Rattle.std.specs.Prelude.{◌≡◌, ◌<◌, ◌∷◌, [], ℕ, List, length, IfOk};
ghost use Rattle.std.specs.Fmt.{decimal};
ghost use Rattle.cfg_values.specs.Interface.{IsInterface, UnitOf, units_text};
ghost use Rattle.commit_check.specs.Kinds.{named, plain, is_in};
ghost use Rattle.commit_check.specs.Units.{is_ospf_interface, unit_of, names_no_unit};

use crate::kinds::begin_as;
use crate::lookup::{below, is_in, named, plain};
use crate::name::{cut, last_name};
use cfg_base::{NoMemory, Path};
use cfg_tree::Full;
use std::alloc::Global;

/// The name of every unit.
const EVERY_UNIT: &[u8] = b"all";

/// Whether a path is an interface of an OSPF area.
fn is_ospf_interface(path: &Path) -> bool
    ensures { result ≡ is_ospf_interface path.now }
{
    begin_as(path.steps(), &[51, 64, 66, 67])
}

/// The path of the unit that a name is of.
fn unit_of(alloc: Global, name: &[u8]) -> Result<Path, NoMemory>
    requires { length name.now < 256 }
    ensures { IfOk result (λ path. path ≡ unit_of name.now) }
{
    let (interface, unit) = cut(name, b'.');
    let interfaces = below(&Path::top(alloc), plain(alloc, 30)?)?;
    let interface = below(&interfaces, named(alloc, 31, interface)?)?;
    below(&interface, named(alloc, 36, unit)?)
}

/// Whether the unit that a name is of is there.
fn is_unit(alloc: Global, full: &Full, name: &[u8]) -> Result<bool, NoMemory>
    requires { length name.now < 256 }
    ensures { IfOk result (λ there. there ≡ is_in full.now (unit_of name.now)) }
{
    Ok(is_in(full, &unit_of(alloc, name)?))
}

/// Whether a path is an OSPF interface, other than that for every unit, whose unit of an interface isn't there.
pub fn names_no_unit(alloc: Global, full: &Full, path: &Path) -> Result<bool, NoMemory>
    ensures { IfOk result (λ told. told ≡ names_no_unit full.now path.now) }
{
    if !is_ospf_interface(path) || last_name(path) == EVERY_UNIT {
        return Ok(false);
    }
    Ok(!is_unit(alloc, full, last_name(path))?)
}

/// The name of one unit, as it is kept, is of the unit of that interface and number.
pub fn names_of_units_are_cut()
    ensures { (interface : List ℕ) (unit : ℕ) → IsInterface interface
        → unit_of (units_text (UnitOf interface unit)) ≡ plain 30 ∷ named 31 interface ∷ named 36 (decimal unit) ∷ [] }
{}
