//! Entries and blocks that a new map shares with an older one.

ghost use Rattle.std.specs.Prelude.{◌≡◌, ◌++◌, take, IsTrue, IfOk};

use crate::entry::Entry;
use crate::layers::Block;
use cfg_base::{NoMemory, Path, Shared, Value};
use std::alloc::Global;

/// Values that are told apart exactly.
pub trait Same {
    /// Whether two values are the same.
    fn is_same(&self, other: &Self) -> bool
        ensures { IsTrue result → self.now ≡ other.now };
}

impl Same for Value {
    fn is_same(&self, other: &Value) -> bool {
        self == other
    }
}

fn is_entry<V: Same + Drop>(older: &Entry<V>, path: &Path, value: &V) -> bool
    ensures { IsTrue result → older.now ≡ (path.now, value.now) }
{
    older.path() == path && older.value().is_same(value)
}

/// The older entry where it has this path and this value, and else a new one.
pub fn shared_or_new<V: Same + Drop>(
    alloc: Global,
    older: Option<&Entry<V>>,
    path: Path,
    value: V,
) -> Result<Entry<V>, NoMemory>
    ensures { IfOk result (λ entry. entry ≡ (path, value)) }
{
    if let Some(entry) = older {
        if is_entry(entry, &path, &value) {
            return Ok(entry.clone()?);
        }
    }
    Entry::new(alloc, path, value)
}

fn are_same<V: Same + Drop>(older: &[Entry<V>], entries: &[Entry<V>]) -> bool
    ensures { IsTrue result → older.now ≡ entries.now }
{
    let mut left = entries;
    for entry in older {
        match left.split_first() {
            None => return false,
            Some((first, rest)) => {
                if !is_entry(entry, first.path(), first.value()) {
                    return false;
                }
                left = rest;
            }
        }
    }
    left.is_empty()
}

/// The older block where it has these entries, and else a new one.
pub fn shared_block<V: Same + Drop>(
    alloc: Global,
    older: Option<&Block<V>>,
    entries: Vec<Entry<V>>,
) -> Result<Block<V>, NoMemory>
    ensures { IfOk result (λ block. block ≡ entries.items) }
{
    if let Some(block) = older {
        if are_same(block.items(), &entries) {
            return Ok(block.clone()?);
        }
    }
    Ok(Shared::new(alloc, entries)?)
}
