//! The statements one after the other, in the order of paths.

ghost use Rattle.std.specs.Prelude.{MatchOption};
ghost use Rattle.cfg_tree.specs.Shown.{shown};
ghost use Rattle.cfg_tree.specs.After.{IsNext, IsLast};

use crate::store::Entries;
use cfg_base::{Path, Value};
use cfg_entries::Entry;

/// The first entry after a path, where one stands there.
fn entry_after<'a>(entries: &'a Entries, path: &Path) -> Option<&'a Entry<Value>>
    ensures { MatchOption result (IsLast (shown entries.now) path.now)
        (λ entry. IsNext (shown entries.now) path.now entry.now.0 entry.now.1) }
{
    let mut rest = entries.from(path);
    let first = rest.next()?;
    if path != first.path() {
        return Some(first);
    }
    rest.next()
}

/// The first statement after a path, where one stands there.
pub fn next_in<'a>(entries: &'a Entries, path: &Path) -> Option<(&'a Path, &'a Value)>
    ensures { MatchOption result (IsLast (shown entries.now) path.now)
        (λ found. IsNext (shown entries.now) path.now found.0.now found.1.now) }
{
    let entry = entry_after(entries, path)?;
    Some((entry.path(), entry.value()))
}
