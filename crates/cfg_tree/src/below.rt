//! The children of a path in the order of paths, without a look at what stands below them.

ghost use Rattle.std.specs.Prelude.{◌≡◌, ◌<◌, length, IfOk, OnOk};
ghost use Rattle.cfg_entries.specs.EntryMap.{past};
ghost use Rattle.cfg_tree.specs.Shown.{shown};
ghost use Rattle.cfg_tree.specs.Children.{steps_below, IsVisit};

use crate::store::{Entries, is_below};
use cfg_base::{NoMemory, Path, Step, Value};
use cfg_entries::Rest;
use std::alloc::Global;

/// Takes the last step of a path of this many steps, and goes past all that is below the child above a
/// longer one.
fn visit<'a>(
    entries: &'a Entries,
    count: usize,
    key: &Path,
    rest: &mut Rest<'a, Value>,
    steps: &mut Vec<Step>,
) -> Result<(), NoMemory>
    requires { 0 < count }
    ensures { OnOk result (IsVisit count key.now entries.now.entries rest.old rest.new steps.old.items steps.new.items) }
{
    let all = key.steps();
    if all.len() == count {
        steps.push(all[count - 1].clone()?)?;
        return Ok(());
    }
    if count < all.len() {
        let child = key.prefix(count)?;
        *rest = entries.past(&child);
    }
    Ok(())
}

/// The last steps of the children of a path, in the order of paths.
pub fn steps_below(alloc: Global, entries: &Entries, path: &Path) -> Result<Vec<Step>, NoMemory>
    ensures { IfOk result (λ steps. steps.items ≡ steps_below (shown entries.now) path.now) }
{
    let count = path.steps().len() + 1;
    let mut steps = Vec::new(alloc);
    let mut rest = entries.from(path);
    while let Some(entry) = rest.next() {
        if !is_below(path, entry.path()) {
            break;
        }
        visit(entries, count, entry.path(), &mut rest, &mut steps)?;
    }
    Ok(steps)
}
