//! An expansion with another one's entries at and below some paths.

ghost use Rattle.std.specs.Prelude.{◌≡◌, filter, IfOk, IfSome, OnOk, IsTrue};
ghost use Rattle.std.specs.FinMap as map;
ghost use Rattle.cfg_tree.specs.Full.{IsWithin};
ghost use Rattle.cfg_tree.specs.Statements.{is_below};
ghost use Rattle.cfg_tree.specs.Shown.{without_all};
ghost use Rattle.kept_expansion.specs.Splice.{cleared, with_entries, entries_at, spliced};

use crate::roots::is_reached;
use cfg_base::{NoMemory, Path};
use cfg_tree::Full;
use std::alloc::Global;

/// Takes the paths away that an expansion has at and below a path.
fn clear_below(made: &mut Full, full: &Full, root: &Path) -> Result<(), NoMemory>
    requires { IsWithin made.old }
    ensures less { OnOk result (made.new ≡ without_all made.old (filter (is_below root.now) (map.keys full.now))) }
    ensures within { OnOk result (IsWithin made.new) }
{
    let mut left = full.walk_from(root);
    while let Some((path, _)) = left.next() {
        if !path.is_below(root) {
            break;
        }
        made.remove(path)?;
    }
    Ok(())
}

/// Takes the paths away that an expansion has at and below some paths.
fn clear(made: &mut Full, full: &Full, roots: &[Path]) -> Result<(), NoMemory>
    requires { IsWithin made.old }
    ensures less { OnOk result (made.new ≡ cleared made.old full.now roots.now) }
    ensures within { OnOk result (IsWithin made.new) }
{
    for root in roots {
        clear_below(made, full, root)?;
    }
    Ok(())
}

/// Puts what a part has at and below some paths, or reports that there is no room.
fn put_all(made: &mut Full, part: &Full, roots: &[Path]) -> Result<bool, NoMemory>
    requires { IsWithin made.old }
    ensures more { IfOk result (λ whole. IsTrue whole → made.new ≡ with_entries made.old (entries_at roots.now (map.entries part.now))) }
    ensures within { OnOk result (IsWithin made.new) }
{
    let mut left = part.walk();
    while let Some((path, given)) = left.next() {
        if is_reached(roots, path) {
            if made.is_full() {
                return Ok(false);
            }
            made.put(path.clone()?, given.clone()?)?;
        }
    }
    Ok(true)
}

/// An expansion that has a part's entries at and below some paths, where there is room for them.
pub fn spliced(full: &Full, part: &Full, roots: &[Path]) -> Result<Option<Full>, NoMemory>
    ensures is { IfOk result (λ made. IfSome made (λ made. made ≡ spliced full.now part.now roots.now)) }
    ensures within { IfOk result (λ made. IfSome made IsWithin) }
{
    let mut made = full.copy()?;
    clear(&mut made, full, roots)?;
    if put_all(&mut made, part, roots)? {
        Ok(Some(made))
    } else {
        Ok(None)
    }
}
