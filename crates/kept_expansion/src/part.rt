//! The part of a configuration that decides what its expansion has at and below some paths.

ghost use Rattle.std.specs.Prelude.{◌≡◌, ◌<◌, true, length, IfOk, IfSome};
ghost use Rattle.std.specs.FinMap as map;
ghost use Rattle.std.specs.List.{list_any, AllByRecursion};
ghost use Rattle.cfg_tree.specs.Statements.{last_of};
ghost use Rattle.cfg_tree.specs.Tree.{IsTree};
ghost use Rattle.kept_expansion.specs.Part.{applies_above, is_near, in_part, part_of};
ghost use Rattle.kept_expansion.specs.Roots.{IsRoot};

use cfg_base::{NoMemory, Path, Step, Value};
use cfg_tree::{GatherFault, Tree, walks_gather_their_tree};
use group_expand::{is_apply, is_outside};
use std::alloc::Global;

/// For how many statements of a part there is room at first.
const FIRST_ROOM: usize = 64;

fn last_step(path: &Path) -> &Step
    requires { 0 < length path.now }
    ensures { result.now ≡ last_of path.now }
{
    let steps = path.steps();
    &steps[steps.len() - 1]
}

/// Whether a path applies or excepts groups at a level above a root.
fn applies_above(path: &Path, root: &Path) -> bool
    ensures { result ≡ applies_above path.now root.now }
{
    let steps = path.steps();
    if steps.is_empty() {
        return false;
    }
    let (above, _) = steps.split_at(steps.len() - 1);
    is_apply(last_step(path)) && root.steps().starts_with(above)
}

/// Whether the last step that both would have is the same, where the path is near the root. Most paths differ there.
fn may_be_near(path: &Path, root: &Path) -> bool
    ensures { is_near path.now root.now ≡ true → result ≡ true }
{
    let steps = path.steps();
    let others = root.steps();
    let both = steps.len().saturating_sub(1).min(others.len());
    both == 0 || steps[both - 1] == others[both - 1]
}

fn is_near(path: &Path, root: &Path) -> bool
    ensures { result ≡ is_near path.now root.now }
{
    may_be_near(path, root)
        && (path.is_below(root) || root.is_below(path) || applies_above(path, root))
}

fn is_near_any(path: &Path, roots: &[Path]) -> bool
    ensures { result ≡ list_any (is_near path.now) roots.now }
{
    roots.iter().any(|root| is_near(path, root))
}

fn in_part(roots: &[Path], path: &Path) -> bool
    ensures { result ≡ in_part roots.now path.now }
{
    !is_outside(path) || is_near_any(path, roots)
}

fn copied(path: &Path, value: &Value) -> Result<(Path, Value), NoMemory>
    ensures { IfOk result (λ item. item ≡ (path.now, value.now)) }
{
    Ok((path.clone()?, value.clone()?))
}

/// The statements of the part, copied.
fn statements_of(alloc: Global, tree: &Tree, roots: &[Path]) -> Result<Vec<(Path, Value)>, NoMemory>
    ensures all { IfOk result (λ items. items.items ≡ map.entries (part_of roots.now tree.now)) }
    ensures tree { IsTree tree.now }
{
    let mut items = Vec::with_capacity(alloc, (tree.count() as usize).min(FIRST_ROOM))?;
    let mut left = tree.walk();
    while let Some((path, value)) = left.next() {
        if in_part(roots, path) {
            items.push(copied(path, value)?)?;
        }
    }
    Ok(items)
}

/// The part as a configuration.
pub fn part_of(alloc: Global, tree: &Tree, roots: &[Path]) -> Result<Option<Tree>, NoMemory>
    requires { AllByRecursion IsRoot roots.now }
    ensures { IfOk result (λ part. IfSome part (λ part. part ≡ part_of roots.now tree.now)) }
{
    walks_gather_their_tree();
    let items = statements_of(alloc, tree, roots)?;
    match Tree::gathered(alloc, &Tree::empty(alloc), items) {
        Ok(part) => Ok(Some(part)),
        Err(GatherFault::TooMany(_)) => Ok(None),
        Err(GatherFault::NoMemory) => Err(NoMemory),
    }
}
