//! All statements laid anew, with one and all below it under another path: one walk, where a change for each statement
//! would make a block and a page anew each time.

ghost use Rattle.std.specs.Prelude.{◌≡◌, List, ◌++◌, ◌∷◌, [], length, drop, None, IfOk};
ghost use Rattle.std.specs.FinMap as finite;
ghost use Rattle.std.specs.Ordering.{is_lt};
ghost use Rattle.cfg_base.specs.Order.{path_cmp};
ghost use Rattle.cfg_base.specs.declared.path.Step as steps;
ghost use Rattle.cfg_entries.specs.EntryMap.{IsOrdered, past};
ghost use Rattle.cfg_tree.specs.Shown.{shown};
ghost use Rattle.cfg_tree.specs.Moving.{part_of, with_part};
ghost use Rattle.cfg_tree.specs.Relaid.{is_kept, left_by, kept, before, moved};

use crate::reorder::pushed;
use crate::store::{Entries, is_below};
use cfg_base::{NoMemory, Path, Value};
use cfg_entries::{Entry, Maker, Rest};
use std::alloc::Global;

/// A path, and the steps of another one after its first ones.
pub fn placed(to: &Path, count: usize, path: &Path) -> Result<Path, NoMemory>
    requires { length to.now ≡ count }
    ensures { IfOk result (λ place. place ≡ to.now ++ drop count path.now) }
{
    let steps = path.steps();
    let mut place = to.clone()?;
    for k in count..steps.len() {
        place = pushed(&place, &steps[k])?;
    }
    Ok(place)
}

fn is_before(path: &Path, other: &Path) -> bool
    ensures { result ≡ is_lt (path_cmp path.now other.now) }
{
    path.cmp(other).is_lt()
}

/// Whether a path stays a statement.
fn is_kept(stays: bool, from: &Path, path: &Path) -> bool
    ensures { result ≡ is_kept stays from.now path.now }
{
    stays || !is_below(from, path)
}

/// One entry more, where it stays.
fn lay_one<'a>(
    maker: Maker<'a, Value>,
    entry: &Entry<Value>,
    from: &Path,
    stays: bool,
) -> Result<Maker<'a, Value>, NoMemory>
    ensures { IfOk result (λ made. made ≡ maker.entry ++ kept stays from.now (entry.now ∷ [])) }
{
    if !is_kept(stays, from, entry.path()) {
        return Ok(maker);
    }
    maker.push(entry.path().clone()?, entry.value().clone()?)
}

/// The entries before a path that stay.
fn lay_front<'a>(
    maker: Maker<'a, Value>,
    entries: &Entries,
    from: &Path,
    to: &Path,
    stays: bool,
) -> Result<Maker<'a, Value>, NoMemory>
    ensures made { IfOk result (λ made. made ≡ maker.entry ++ kept stays from.now (before to.now entries.now.entries)) }
    ensures ordered { IsOrdered path_cmp entries.now }
{
    let mut made = maker;
    let mut left = entries.iter();
    while let Some(entry) = left.next() {
        if !is_before(entry.path(), to) {
            break;
        }
        made = lay_one(made, entry, from, stays)?;
    }
    Ok(made)
}

/// The part, under the other path.
fn lay_part<'a>(
    maker: Maker<'a, Value>,
    part: Vec<(Path, Value)>,
    from: &Path,
    to: &Path,
) -> Result<Maker<'a, Value>, NoMemory>
    requires { length to.now ≡ length from.now }
    ensures { IfOk result (λ made. made ≡ maker.entry ++ moved from.now to.now part.items) }
{
    let count = from.steps().len();
    let mut made = maker;
    for (path, value) in part {
        made = made.push(placed(to, count, &path)?, value)?;
    }
    Ok(made)
}

/// Those of the entries that are left which stay.
fn lay_rest<'a>(
    maker: Maker<'a, Value>,
    rest: Rest<'_, Value>,
    from: &Path,
    stays: bool,
) -> Result<Maker<'a, Value>, NoMemory>
    ensures { IfOk result (λ made. made ≡ maker.entry ++ kept stays from.now rest.entry) }
{
    let mut made = maker;
    let mut left = rest;
    while let Some(entry) = left.next() {
        made = lay_one(made, entry, from, stays)?;
    }
    Ok(made)
}

/// The statements with a part under a path below which none is. What stays shares its blocks.
pub fn relaid(
    alloc: Global,
    entries: &Entries,
    part: Vec<(Path, Value)>,
    from: &Path,
    to: &Path,
    stays: bool,
) -> Result<Entries, NoMemory>
    requires lengths { length to.now ≡ length from.now }
    requires part { part.items ≡ part_of (shown entries.now) from.now }
    requires free { (rest : List steps.Step) → finite.get (shown entries.now) (to.now ++ rest) ≡ None }
    ensures { IfOk result (λ made. shown made ≡ with_part from.now to.now (left_by stays (shown entries.now) from.now) part.items) }
{
    let front = lay_front(Maker::beside(alloc, entries), entries, from, to, stays)?;
    let moved = lay_part(front, part, from, to)?;
    lay_rest(moved, entries.past(to), from, stays)?.finish()
}
