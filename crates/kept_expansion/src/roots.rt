//! Below which statements all stands that a change may change in the expansion.

ghost use Rattle.std.specs.Prelude.{◌≡◌, ◌≤◌, length, take, map, true, IfOk, IfSome};
ghost use Rattle.std.specs.List.{AllByRecursion};
ghost use Rattle.kept_expansion.specs.Roots.{has_ordered, place_below, root_from, root_of, is_local};
ghost use Rattle.kept_expansion.specs.Changes.{is_reached};

use cfg_base::{NoMemory, Path, Step};
use cfg_schema::Place;
use group_expand::{is_apply, is_outside};
use std::alloc::Global;

/// How many roots a part has at most. Each statement is compared with each of them.
const MAX_ROOTS: usize = 8;

fn has_ordered(here: &Option<Place>) -> bool
    ensures { result ≡ has_ordered here.now }
{
    match here {
        None => false,
        Some(here) => here.ordered_row().is_some(),
    }
}

fn place_below(above: &Option<Place>, step: &Step) -> Option<Place>
    ensures { result ≡ place_below above.now step.now }
{
    match above {
        None => None,
        Some(here) => here.after(step),
    }
}

/// How many first steps of a path its root has.
fn root_length(here: &Option<Place>, steps: &[Step]) -> usize
    ensures root { take result steps.now ≡ root_from here.now steps.now }
    ensures within { result ≤ length steps.now }
{
    match steps {
        [] => 0,
        [step, rest @ ..] => {
            if is_apply(step) || has_ordered(here) {
                return 0;
            }
            1 + root_length(&place_below(here, step), rest)
        }
    }
}

fn root_of(path: &Path) -> Result<Path, NoMemory>
    ensures { IfOk result (λ root. root ≡ root_of path.now) }
{
    let top = Some(Place::top());
    path.prefix(root_length(&top, path.steps()))
}

/// Whether a path is neither the top nor at or below `groups`.
fn is_local(path: &Path) -> bool
    ensures { result ≡ is_local path.now }
{
    !path.steps().is_empty() && is_outside(path)
}

/// Whether a path is one of some paths, or below one of them.
pub fn is_reached(paths: &[Path], path: &Path) -> bool
    ensures { result ≡ is_reached paths.now path.now }
{
    paths.iter().any(|above| path.is_below(above))
}

/// The roots of some paths, where all are local and there are few.
pub fn local_roots(alloc: Global, touched: &[Path]) -> Result<Option<Vec<Path>>, NoMemory>
    ensures roots { IfOk result (λ roots. IfSome roots (λ roots. roots.items ≡ map root_of touched.now)) }
    ensures local { IfOk result (λ roots. IfSome roots (λ roots. AllByRecursion (λ root. is_local root ≡ true) roots.items)) }
{
    if touched.len() > MAX_ROOTS {
        return Ok(None);
    }
    let mut roots = Vec::new(alloc);
    for path in touched {
        let root = root_of(path)?;
        if !is_local(&root) {
            return Ok(None);
        }
        roots.push(root)?;
    }
    Ok(Some(roots))
}
