//! A statement, with all below it, under another name of its row.

ghost use Rattle.std.specs.Prelude.{◌≡◌, ◌<◌, List, ◌++◌, length, None, OnOk, OnErr, IfOk, IfErr, if◌then◌else◌};
ghost use Rattle.std.specs.FinMap as finite;
ghost use Rattle.std.specs.Map.{keys_of};
ghost use Rattle.cfg_base.specs.Order.{path_cmp};
ghost use Rattle.cfg_base.specs.declared.path.Step as steps;
ghost use Rattle.cfg_entries.specs.EntryMap.{IsOrdered};
ghost use Rattle.cfg_schema.specs.Profile.{same_word};
ghost use Rattle.cfg_tree.specs.Tree.{IsTree};
ghost use Rattle.cfg_tree.specs.Shown.{shown, without_all};
ghost use Rattle.cfg_tree.specs.Relaid.{left_by};
ghost use Rattle.cfg_tree.specs.Moving.{part_of, with_part, in_place, relisted, copied, renamed, IsNewName, IsCopyFault};
ghost use Rattle.cfg_tree.specs.declared.moving.CopyFault.TheVariants.{NoMemory};

use crate::limit::MAX_STATEMENTS;
use crate::relaid::{placed, relaid};
use crate::reorder::{carry_out, is_ordered, listing_of};
use crate::store::{Entries, is_below, put_entry, set_order, take_entry};
use cfg_base::{NoMemory, Path, Value, Word, WordList};
use std::alloc::Global;
use thiserror::Error;

/// Why a statement isn't copied.
#[derive(Clone, Copy, Debug, PartialEq, Eq, Error)]
pub enum CopyFault {
    #[error("more than 16384 statements")]
    TooMany,
    #[error("out of memory")]
    NoMemory,
}

impl From<NoMemory> for CopyFault {
    ghost from_gives = { λ _ fault. fault ≡ NoMemory };

    fn from(_: NoMemory) -> CopyFault {
        CopyFault::NoMemory
    }
}

/// A statement and all below it, in the order of paths.
fn part_of(alloc: Global, entries: &Entries, path: &Path) -> Result<Vec<(Path, Value)>, NoMemory>
    ensures part { IfOk result (λ part. part.items ≡ part_of (shown entries.now) path.now) }
    ensures ordered { IsOrdered path_cmp entries.now }
{
    let mut part = Vec::new(alloc);
    let mut rest = entries.from(path);
    while let Some(entry) = rest.next() {
        if !is_below(path, entry.path()) {
            break;
        }
        part.push((entry.path().clone()?, entry.value().clone()?))?;
    }
    Ok(part)
}

/// Takes each of these statements away.
fn take_part(entries: &mut Entries, part: &[(Path, Value)]) -> Result<(), NoMemory>
    ensures { OnOk result (shown entries.new ≡ without_all (shown entries.old) (keys_of part.now)) }
{
    for item in part {
        take_entry(entries, &item.0)?;
    }
    Ok(())
}

/// Puts each of these values at the same place below another path.
fn put_part(
    entries: &mut Entries,
    part: Vec<(Path, Value)>,
    from: &Path,
    to: &Path,
) -> Result<(), NoMemory>
    requires { length to.now ≡ length from.now }
    ensures { OnOk result (shown entries.new ≡ with_part from.now to.now (shown entries.old) part.items) }
{
    let count = from.steps().len();
    for (path, value) in part {
        let place = placed(to, count, &path)?;
        put_entry(entries, place, value)?;
    }
    Ok(())
}

/// The statements without those of a part, or all of them where they stay.
fn left_by(entries: &Entries, part: &[(Path, Value)], stays: bool) -> Result<Entries, NoMemory>
    ensures { IfOk result (λ left. shown left ≡ (if stays then shown entries.now else without_all (shown entries.now) (keys_of part.now))) }
{
    let mut left = entries.clone()?;
    if stays {
        return Ok(left);
    }
    take_part(&mut left, part)?;
    Ok(left)
}

/// The statements with a part under another path, each put there by itself.
fn with_each(
    entries: &Entries,
    part: Vec<(Path, Value)>,
    from: &Path,
    to: &Path,
    stays: bool,
) -> Result<Entries, NoMemory>
    requires lengths { length to.now ≡ length from.now }
    requires part { part.items ≡ part_of (shown entries.now) from.now }
    requires ordered { IsOrdered path_cmp entries.now }
    ensures { IfOk result (λ made. shown made ≡ with_part from.now to.now (left_by stays (shown entries.now) from.now) part.items) }
{
    let mut made = left_by(entries, &part, stays)?;
    put_part(&mut made, part, from, to)?;
    Ok(made)
}

/// The statements with a part under another path.
fn with_part(
    alloc: Global,
    entries: &Entries,
    part: Vec<(Path, Value)>,
    from: &Path,
    to: &Path,
    stays: bool,
) -> Result<Entries, NoMemory>
    requires lengths { length to.now ≡ length from.now }
    requires part { part.items ≡ part_of (shown entries.now) from.now }
    requires ordered { IsOrdered path_cmp entries.now }
    requires free { (rest : List steps.Step) → finite.get (shown entries.now) (to.now ++ rest) ≡ None }
    ensures { IfOk result (λ made. shown made ≡ with_part from.now to.now (left_by stays (shown entries.now) from.now) part.items) }
{
    // A walk past eight statements costs less than the block and the page that are made anew for one that is put.
    if part.len() < entries.len() / 8 {
        with_each(entries, part, from, to, stays)
    } else {
        relaid(alloc, entries, part, from, to, stays)
    }
}

/// A name, or the new one where it is the old one.
fn name_in_place<'a>(name: &'a Word, old: &Word, new: &'a Word) -> &'a Word
    ensures { result.now ≡ (if same_word old.now name.now then new.now else name.now) }
{
    if old.as_bytes() == name.as_bytes() {
        new
    } else {
        name
    }
}

/// The names with a new one in the place of an old one.
fn in_place(alloc: Global, names: &WordList, old: &Word, new: &Word) -> Result<WordList, NoMemory>
    ensures { IfOk result (λ changed. changed ≡ in_place old.now new.now names.now) }
{
    let mut changed = WordList::new(alloc);
    let mut left = names.iter();
    while let Some(name) = left.next() {
        changed.push(name_in_place(name, old, new).clone()?)?;
    }
    Ok(changed)
}

/// Gives the new name the old one's place in the order of their parent.
fn relist(alloc: Global, entries: &mut Entries, from: &Path, to: &Path) -> Result<(), NoMemory>
    requires { length to.now ≡ length from.now }
    ensures { OnOk result (shown entries.new ≡ relisted (shown entries.old) from.now to.now) }
{
    if !is_ordered(from) {
        return Ok(());
    }
    let above = from.steps().len() - 1;
    let parent = from.prefix(above)?;
    let order = match entries.get(&parent) {
        None => return Ok(()),
        Some(value) => in_place(
            alloc,
            &value.order,
            &from.steps()[above].name,
            &to.steps()[above].name,
        )?,
    };
    set_order(entries, &parent, order)
}

/// Puts a part under another name, which goes last, all or nothing.
fn copy_part(
    alloc: Global,
    entries: &mut Entries,
    part: Vec<(Path, Value)>,
    from: &Path,
    to: &Path,
) -> Result<(), NoMemory>
    requires steps { 0 < length to.now }
    requires lengths { length to.now ≡ length from.now }
    requires part { part.items ≡ part_of (shown entries.old) from.now }
    requires ordered { IsOrdered path_cmp entries.old }
    requires free { (rest : List steps.Step) → finite.get (shown entries.old) (to.now ++ rest) ≡ None }
    ensures ok { OnOk result (shown entries.new ≡ copied (shown entries.old) from.now to.now) }
    ensures unchanged { OnErr result (entries.new ≡ entries.old) }
{
    let reorder = listing_of(alloc, entries, to, true)?;
    let mut next = with_part(alloc, entries, part, from, to, true)?;
    carry_out(&mut next, reorder)?;
    *entries = next;
    Ok(())
}

/// Puts a part under another name, which takes the old one's place, all or nothing.
fn rename_part(
    alloc: Global,
    entries: &mut Entries,
    part: Vec<(Path, Value)>,
    from: &Path,
    to: &Path,
) -> Result<(), NoMemory>
    requires lengths { length to.now ≡ length from.now }
    requires part { part.items ≡ part_of (shown entries.old) from.now }
    requires ordered { IsOrdered path_cmp entries.old }
    requires free { (rest : List steps.Step) → finite.get (shown entries.old) (to.now ++ rest) ≡ None }
    ensures ok { OnOk result (shown entries.new ≡ renamed (shown entries.old) from.now to.now) }
    ensures unchanged { OnErr result (entries.new ≡ entries.old) }
{
    let mut next = with_part(alloc, entries, part, from, to, false)?;
    relist(alloc, &mut next, from, to)?;
    *entries = next;
    Ok(())
}

/// Copies a statement, and all below it, to another name.
pub fn copy_in(
    alloc: Global,
    entries: &mut Entries,
    from: &Path,
    to: &Path,
) -> Result<(), CopyFault>
    requires tree { IsTree (shown entries.old) }
    requires new { IsNewName (shown entries.old) from.now to.now }
    ensures ok { OnOk result (shown entries.new ≡ copied (shown entries.old) from.now to.now) }
    ensures err { IfErr result (IsCopyFault (shown entries.old) from.now to.now) }
    ensures unchanged { OnErr result (shown entries.new ≡ shown entries.old) }
    ensures kept { IsTree (shown entries.new) }
{
    let part = part_of(alloc, entries, from)?;
    if MAX_STATEMENTS - entries.len() < part.len() {
        return Err(CopyFault::TooMany);
    }
    copy_part(alloc, entries, part, from, to)?;
    Ok(())
}

/// Gives a statement, with all below it, another name.
pub fn rename_in(
    alloc: Global,
    entries: &mut Entries,
    from: &Path,
    to: &Path,
) -> Result<(), NoMemory>
    requires tree { IsTree (shown entries.old) }
    requires new { IsNewName (shown entries.old) from.now to.now }
    ensures ok { OnOk result (shown entries.new ≡ renamed (shown entries.old) from.now to.now) }
    ensures unchanged { OnErr result (shown entries.new ≡ shown entries.old) }
    ensures kept { IsTree (shown entries.new) }
{
    let part = part_of(alloc, entries, from)?;
    rename_part(alloc, entries, part, from, to)?;
    Ok(())
}
