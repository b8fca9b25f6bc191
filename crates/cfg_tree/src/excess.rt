//! Whether statements have more paths than a tree has statements.

ghost use Rattle.std.specs.Prelude.{◌≡◌, ◌≤◌, List, true, not, cond, IfOk, OnOk, MatchOption};
ghost use Rattle.std.specs.BTreeSet as set;
ghost use Rattle.std.specs.Ordering.{eq_by_cmp};
ghost use Rattle.cfg_base.specs.Order.{path_cmp};
ghost use Rattle.cfg_base.specs.declared.path.Step.{Step};
ghost use Rattle.cfg_tree.specs.declared.limit.TheConstants.{MAX_STATEMENTS};
ghost use Rattle.cfg_tree.specs.Limit.{paths_of, different, IsPathPast};

use crate::limit::MAX_STATEMENTS;
use cfg_base::{NoMemory, Path, Value};
use std::alloc::Global;
use std::collections::BTreeSet;

/// Adds a path to the known ones, and reports whether it is new.
fn learn(known: &mut BTreeSet<Path>, path: &Path) -> Result<bool, NoMemory>
    ensures new { IfOk result (λ new. new ≡ not (set.contains path_cmp known.old path.now)) }
    ensures knows { OnOk result ((other : List Step) → set.contains path_cmp known.new other ≡ cond (eq_by_cmp path_cmp path.now other) true (set.contains path_cmp known.old other)) }
{
    Ok(known.insert(path.clone()?)?)
}

/// The place of the first item whose path would be one more than a tree has.
fn path_past(alloc: Global, items: &[(Path, Value)]) -> Result<Option<usize>, NoMemory>
    ensures { IfOk result (λ place. MatchOption place (different (paths_of items.now) ≤ MAX_STATEMENTS) (IsPathPast (paths_of items.now))) }
{
    let mut known = BTreeSet::new(alloc);
    let mut count = 0;
    for at in 0..items.len() {
        if learn(&mut known, &items[at].0)? {
            if count == MAX_STATEMENTS {
                return Ok(Some(at));
            }
            count += 1;
        }
    }
    Ok(None)
}

/// The place of the first item that would be one statement more than a tree has, where there is one.
pub fn statement_past_limit(
    alloc: Global,
    items: &[(Path, Value)],
) -> Result<Option<usize>, NoMemory>
    ensures { IfOk result (λ place. MatchOption place (different (paths_of items.now) ≤ MAX_STATEMENTS) (IsPathPast (paths_of items.now))) }
{
    // So few have no more paths, and no set of these is made.
    if items.len() <= MAX_STATEMENTS {
        return Ok(None);
    }
    path_past(alloc, items)
}
