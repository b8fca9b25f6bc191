//! What is merged at a path, and which paths conflict.

ghost use Rattle.std.specs.Prelude.{◌≡◌, Decides, IfOk};
ghost use Rattle.std.specs.Option.{option_copied};
ghost use Rattle.cfg_tree.specs.Tree.{IsTree};
ghost use Rattle.private_merge.specs.Merge.{IsMergedAt, Conflicts};
ghost use Rattle.private_merge.specs.Walking.{HasNoParent, StandsIn};

use crate::place::{Place, merged_of};
use cfg_base::{NoMemory, Path, Value};
use cfg_tree::Tree;

fn merged_at<'a>(base: &Tree, active: &'a Tree, mine: &'a Tree, path: &Path) -> Option<&'a Value>
    ensures { IsMergedAt base.now active.now mine.now path.now (option_copied result) }
{
    merged_of(base.at(path), active.at(path), mine.at(path))
}

/// Whether the parent of a path is gone.
fn lacks_parent(base: &Tree, active: &Tree, mine: &Tree, path: &Path) -> Result<bool, NoMemory>
    ensures { IfOk result (λ lacks. Decides lacks (HasNoParent base.now active.now mine.now path.now)) }
{
    let steps = path.steps().len();
    if steps < 2 {
        return Ok(false);
    }
    let parent = path.prefix(steps - 1)?;
    Ok(merged_at(base, active, mine, &parent).is_none())
}

/// Whether a path conflicts.
pub fn conflicts(
    base: &Tree,
    active: &Tree,
    mine: &Tree,
    place: &Place<'_>,
) -> Result<bool, NoMemory>
    requires base { IsTree base.now }
    requires active { IsTree active.now }
    requires mine { IsTree mine.now }
    requires stands { StandsIn base.now active.now mine.now place.now }
    ensures { IfOk result (λ found. Decides found (Conflicts base.now active.now mine.now place.now.path)) }
{
    // Where nothing changed, the statement has its parent on all sides, and nothing is looked up.
    if place.is_untouched() {
        return Ok(false);
    }
    if place.is_changed_twice() {
        return Ok(true);
    }
    // What stands on both sides has its parent on both, and one of these is merged.
    if place.is_on_both() {
        return Ok(false);
    }
    if place.is_gone() {
        return Ok(false);
    }
    lacks_parent(base, active, mine, place.path())
}
