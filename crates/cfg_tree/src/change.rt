//! Puts and removals, over the map that a tree stands on.

ghost use Rattle.std.specs.Prelude.{◌≡◌, ◌<◌, ◌+◌, length, OnOk, OnErr, IfOk, IfErr, is_none, nat_le};
ghost use Rattle.std.specs.FinMap as finite;
ghost use Rattle.cfg_tree.specs.Statements.{size_of};
ghost use Rattle.cfg_tree.specs.declared.limit.TheConstants.{MAX_STATEMENTS};
ghost use Rattle.cfg_tree.specs.Tree.{IsTree};
ghost use Rattle.cfg_tree.specs.Shown.{shown, without_all};
ghost use Rattle.cfg_tree.specs.Change.{put_at, removed, HasRoom, IsReady, IsPut, IsPutFault, IsOther};
ghost use Rattle.cfg_tree.specs.Renaming.{reordered_by};

use crate::fault::TreeFault;
use crate::limit::MAX_STATEMENTS;
use crate::reorder::{Change, Reorder, carry_out, listing_of, reorder_of};
use crate::store::{Entries, keys_below, put_entry, take_entry};
use crate::typed::check;
use cfg_base::{NoMemory, Path, Value};
use std::alloc::Global;

/// Puts a value at a path and then changes the parent's order, all or nothing.
fn put_listed(
    entries: &mut Entries,
    path: Path,
    value: Value,
    reorder: Option<Reorder>,
) -> Result<(), NoMemory>
    ensures ok { OnOk result (shown entries.new ≡ reordered_by reorder (finite.insert (shown entries.old) path value)) }
    ensures unchanged { OnErr result (entries.new ≡ entries.old) }
{
    if reorder.is_none() {
        return put_entry(entries, path, value);
    }
    let mut next = entries.clone()?;
    put_entry(&mut next, path, value)?;
    carry_out(&mut next, reorder)?;
    *entries = next;
    Ok(())
}

/// Puts a value at a path; `new` says that none is there.
pub fn store(
    alloc: Global,
    entries: &mut Entries,
    path: &Path,
    value: Value,
    new: bool,
) -> Result<(), NoMemory>
    requires steps { 0 < length path.now }
    requires is_new { new ≡ is_none (finite.get (shown entries.old) path.now) }
    ensures ok { OnOk result (shown entries.new ≡ put_at (shown entries.old) path.now value) }
    ensures unchanged { OnErr result (shown entries.new ≡ shown entries.old) }
{
    let reorder = listing_of(alloc, entries, path, new)?;
    put_listed(entries, path.clone()?, value, reorder)
}

fn take_all(entries: &mut Entries, keys: &[Path]) -> Result<(), NoMemory>
    ensures { OnOk result (shown entries.new ≡ without_all (shown entries.old) keys.now) }
{
    for key in keys {
        take_entry(entries, key)?;
    }
    Ok(())
}

/// Takes paths away and then changes the parent's order, all or nothing.
fn take_listed(
    entries: &mut Entries,
    keys: &[Path],
    reorder: Option<Reorder>,
) -> Result<(), NoMemory>
    ensures ok { OnOk result (shown entries.new ≡ reordered_by reorder (without_all (shown entries.old) keys.now)) }
    ensures unchanged { OnErr result (entries.new ≡ entries.old) }
{
    let mut next = entries.clone()?;
    take_all(&mut next, keys)?;
    carry_out(&mut next, reorder)?;
    *entries = next;
    Ok(())
}

/// Takes a path and all below it away, and reports how many paths went.
pub fn unstore(alloc: Global, entries: &mut Entries, path: &Path) -> Result<usize, NoMemory>
    ensures ok { OnOk result (shown entries.new ≡ removed (shown entries.old) path.now) }
    ensures count { IfOk result (λ count. count + size_of (shown entries.new) ≡ size_of (shown entries.old)) }
    ensures unchanged { OnErr result (shown entries.new ≡ shown entries.old) }
{
    let keys = keys_below(alloc, entries, path)?;
    let reorder = reorder_of(alloc, entries, path, Change::Without)?;
    take_listed(entries, &keys, reorder)?;
    Ok(keys.len())
}

fn is_new(entries: &Entries, path: &Path) -> bool
    ensures { result ≡ is_none (finite.get (shown entries.now) path.now) }
{
    !entries.contains_key(path)
}

fn is_full(entries: &Entries) -> bool
    ensures { result ≡ nat_le MAX_STATEMENTS (size_of (shown entries.now)) }
{
    MAX_STATEMENTS <= entries.len()
}

/// Whether a path is new, where there is room for it.
fn room(entries: &Entries, path: &Path) -> Result<bool, TreeFault>
    ensures { HasRoom (shown entries.now) path.now result }
{
    if !is_new(entries, path) {
        return Ok(false);
    }
    if is_full(entries) {
        return Err(TreeFault::TooMany);
    }
    Ok(true)
}

/// Puts a value at a path, where all of it is of the profile and there is room.
pub fn put_in(
    alloc: Global,
    entries: &mut Entries,
    path: &Path,
    value: Value,
) -> Result<(), TreeFault>
    requires tree { IsTree (shown entries.old) }
    requires ready { IsReady (shown entries.old) path.now value }
    ensures ok { OnOk result (IsPut (shown entries.old) (shown entries.new) path.now value) }
    ensures err { IfErr result (λ fault. IsPutFault (shown entries.old) path.now value fault) }
    ensures unchanged { OnErr result (shown entries.new ≡ shown entries.old) }
    ensures kept { IsTree (shown entries.new) }
{
    check(alloc, path, &value)?;
    let new = room(entries, path)?;
    store(alloc, entries, path, value, new)?;
    Ok(())
}

/// Gives a path that is there another value. All of it is of the profile: nothing of it is read.
pub fn replace_in(
    alloc: Global,
    entries: &mut Entries,
    path: &Path,
    value: Value,
) -> Result<(), NoMemory>
    requires tree { IsTree (shown entries.old) }
    requires other { IsOther (shown entries.old) path.now value }
    ensures ok { OnOk result (shown entries.new ≡ put_at (shown entries.old) path.now value) }
    ensures unchanged { OnErr result (shown entries.new ≡ shown entries.old) }
    ensures kept { IsTree (shown entries.new) }
{
    store(alloc, entries, path, value, false)?;
    Ok(())
}

/// Takes a path and all below it away, and reports how many paths went.
pub fn remove_in(alloc: Global, entries: &mut Entries, path: &Path) -> Result<u32, NoMemory>
    requires { IsTree (shown entries.old) }
    ensures ok { OnOk result (shown entries.new ≡ removed (shown entries.old) path.now) }
    ensures count { IfOk result (λ count. count + size_of (shown entries.new) ≡ size_of (shown entries.old)) }
    ensures unchanged { OnErr result (shown entries.new ≡ shown entries.old) }
    ensures kept { IsTree (shown entries.new) }
{
    let count = unstore(alloc, entries, path)?;
    Ok(count as u32)
}
