//! Whether two maps differ at a path or below it.

ghost use Rattle.std.specs.Prelude.{◌≡◌, [], ◌∷◌, MatchOption, Decides};
ghost use Rattle.std.specs.Cmp.Lexicographic.{pointwise};
ghost use Rattle.cfg_base.specs.contracts.value.ValuePartialEq.TheImpl as value_order;
ghost use Rattle.cfg_entries.specs.EntryMap.{same_pair};
ghost use Rattle.edit_ops.specs.Block.{DiffersBelow};
ghost use Rattle.load_ops.specs.Parts.{front_below};

use cfg_base::{Path, Value};
use cfg_tree::{Draft, Tree, Walk};

/// The next statement of a walk, where it stands at a path or below it.
fn next_below<'a>(walk: &mut Walk<'a>, path: &Path) -> Option<(&'a Path, &'a Value)>
    ensures { MatchOption result (front_below path.now walk.old ≡ []) (λ found. front_below path.now walk.old ≡ (found.0.now, found.1.now) ∷ front_below path.now walk.new) }
{
    let (at, value) = walk.next()?;
    if at.is_below(path) {
        Some((at, value))
    } else {
        None
    }
}

/// Whether what two walks begin with, as far as it stands at a path or below it, is the same.
fn same_front(one: Walk<'_>, other: Walk<'_>, path: &Path) -> bool
    ensures { result ≡ pointwise (same_pair (value_order.ghosts).eq) (front_below path.now one.entry) (front_below path.now other.entry) }
{
    let mut mine = one;
    let mut theirs = other;
    while let Some((at, value)) = next_below(&mut mine, path) {
        match next_below(&mut theirs, path) {
            None => return false,
            Some((place, found)) => {
                if at != place || value != found {
                    return false;
                }
            }
        }
    }
    next_below(&mut theirs, path).is_none()
}

/// Whether two maps differ at a path or below it.
pub fn differs_below(old: &Tree, new: &Draft, path: &Path) -> bool
    ensures { Decides result (DiffersBelow old.now new.now path.now) }
{
    !same_front(old.walk_from(path), new.walk_from(path), path)
}
