//! The map from paths to values that a tree stands on.

ghost use Rattle.std.specs.Prelude.{◌≡◌, OnOk, OnErr, IfOk, filter};
ghost use Rattle.std.specs.Option.{option_map};
ghost use Rattle.std.specs.FinMap as finite;
ghost use Rattle.cfg_base.specs.Order.{path_cmp};
ghost use Rattle.cfg_entries.specs.EntryMap as tree;
ghost use Rattle.cfg_tree.specs.Statements.{is_below};
ghost use Rattle.cfg_tree.specs.Change.{with_order};
ghost use Rattle.cfg_tree.specs.Shown.{shown, with_names};

use cfg_base::{NoMemory, Path, Value, WordList};
use std::alloc::{AllocError, Global};

/// The statements, by their paths.
pub type Entries = cfg_entries::Entries<Value>;

/// Whether a path is another one or below it.
pub fn is_below(above: &Path, path: &Path) -> bool
    ensures { result ≡ is_below above.now path.now }
{
    path.is_below(above)
}

/// Puts a value at a path.
pub fn put_entry(entries: &mut Entries, path: Path, value: Value) -> Result<(), NoMemory>
    ensures ok { OnOk result (shown entries.new ≡ finite.insert (shown entries.old) path value) }
    ensures unchanged { OnErr result (entries.new ≡ entries.old) }
{
    entries.insert(path, value)
}

/// Takes a path away.
pub fn take_entry(entries: &mut Entries, path: &Path) -> Result<(), NoMemory>
    ensures ok { OnOk result (shown entries.new ≡ finite.remove (shown entries.old) path.now) }
    ensures unchanged { OnErr result (entries.new ≡ entries.old) }
{
    entries.remove(path)
}

/// The value at a path, with another order.
fn reordered(entries: &Entries, path: &Path, order: WordList) -> Result<Option<Value>, NoMemory>
    ensures { IfOk result (λ value. value ≡ option_map (with_names order) (tree.get path_cmp entries.now path.now)) }
{
    match entries.get(path) {
        None => Ok(None),
        Some(value) => Ok(Some(Value {
            inactive: value.inactive,
            protected: value.protected,
            order,
            words: value.words.clone()?,
        })),
    }
}

/// Gives the value at a path, where there is one, another order.
pub fn set_order(entries: &mut Entries, path: &Path, order: WordList) -> Result<(), NoMemory>
    ensures ok { OnOk result (shown entries.new ≡ with_order (shown entries.old) path.now (λ _. order)) }
    ensures unchanged { OnErr result (entries.new ≡ entries.old) }
{
    match reordered(entries, path, order)? {
        None => Ok(()),
        Some(value) => put_entry(entries, path.clone()?, value),
    }
}

/// The paths at and below a path, in their order.
pub fn keys_below(alloc: Global, entries: &Entries, path: &Path) -> Result<Vec<Path>, AllocError>
    ensures ok { IfOk result (λ keys. keys.items ≡ filter (is_below path.now) (tree.keys entries.now)) }
    ensures ordered { tree.IsOrdered path_cmp entries.now }
{
    let mut keys = Vec::new(alloc);
    let mut rest = entries.from(path);
    while let Some(entry) = rest.next() {
        if !is_below(path, entry.path()) {
            break;
        }
        keys.push(entry.path().clone()?)?;
    }
    Ok(keys)
}
