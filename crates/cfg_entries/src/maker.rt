//! A map that is made from entries that come in the order of their paths.

ghost use Rattle.std.specs.Prelude.{◌≡◌, ◌<◌, ◌≤◌, ◌+◌, ◌∷◌, [], ◌++◌, length, IfOk, OnOk};
ghost use Rattle.std.specs.List.{AllByRecursion};
ghost use Rattle.std.specs.Map.{keys_of};
ghost use Rattle.std.specs.List.Sorted.{IsStrictlySortedBy};
ghost use Rattle.cfg_base.specs.Order.{path_cmp};
ghost use Rattle.cfg_entries.specs.Making.{so_far, AreLaid};
ghost use Rattle.cfg_entries.specs.Rows.{flat, rows_of, AreSized, IsPage};
ghost use Rattle.cfg_base.specs.declared.shared.TheConstants.{MAX_ITEMS};

use crate::entries::Entries;
use crate::entry::Entry;
use crate::layers::{Block, Page};
use crate::older::{Older, block_at, entry_of, sought};
use crate::rest::Rest;
use crate::sharing::{Same, shared_block, shared_or_new};
use cfg_base::{MAX_ITEMS, NoMemory, Path, Shared};
use std::alloc::Global;
use std::marker::Model;
use std::mem::replace;

/// Puts entries as one more block after others; the older one where it has just these.
fn lay_block<V: Same + Drop>(
    alloc: Global,
    blocks: &mut Vec<Block<V>>,
    entries: Vec<Entry<V>>,
    older: Option<&Block<V>>,
) -> Result<(), NoMemory>
    requires few { length entries.items ≤ MAX_ITEMS }
    requires sized { AreSized blocks.old.items }
    ensures same { OnOk result (flat blocks.new.items ≡ flat blocks.old.items ++ entries.items) }
    ensures sized { OnOk result (AreSized blocks.new.items) }
    ensures one { OnOk result (length blocks.new.items ≤ length blocks.old.items + 1) }
{
    if entries.is_empty() {
        return Ok(());
    }
    blocks.push(shared_block(alloc, older, entries)?)?;
    Ok(())
}

/// Puts blocks as one more page after others.
fn lay_page<V: Drop>(
    alloc: Global,
    pages: &mut Vec<Page<V>>,
    blocks: Vec<Block<V>>,
) -> Result<(), NoMemory>
    requires few { length blocks.items ≤ MAX_ITEMS }
    requires blocks { AreSized blocks.items }
    requires sized { AllByRecursion IsPage pages.old.items }
    ensures same { OnOk result (flat (rows_of pages.new.items) ≡ flat (rows_of pages.old.items) ++ flat blocks.items) }
    ensures sized { OnOk result (AllByRecursion IsPage pages.new.items) }
{
    if blocks.is_empty() {
        return Ok(());
    }
    pages.push(Shared::new(alloc, blocks)?)?;
    Ok(())
}

/// The blocks of the last page, where they leave room for one more.
fn page_room<V: Drop>(
    alloc: Global,
    pages: &mut Vec<Page<V>>,
    blocks: Vec<Block<V>>,
) -> Result<Vec<Block<V>>, NoMemory>
    requires few { length blocks.items ≤ MAX_ITEMS }
    requires blocks { AreSized blocks.items }
    requires sized { AllByRecursion IsPage pages.old.items }
    ensures same { IfOk result (λ left. flat (rows_of pages.new.items) ++ flat left.items ≡ flat (rows_of pages.old.items) ++ flat blocks.items) }
    ensures pages { OnOk result (AllByRecursion IsPage pages.new.items) }
    ensures blocks { IfOk result (λ left. AreSized left.items) }
    ensures room { IfOk result (λ left. length left.items < MAX_ITEMS) }
{
    if blocks.len() < MAX_ITEMS {
        return Ok(blocks);
    }
    lay_page(alloc, pages, blocks)?;
    Ok(Vec::new(alloc))
}

/// The entries of the last block, where they leave room for one more and `ends` doesn't say that the
/// block ends here.
fn make_room<V: Same + Drop>(
    alloc: Global,
    pages: &mut Vec<Page<V>>,
    blocks: &mut Vec<Block<V>>,
    entries: Vec<Entry<V>>,
    ends: bool,
    older: Option<&Block<V>>,
) -> Result<Vec<Entry<V>>, NoMemory>
    requires { AreLaid pages.old.items blocks.old.items entries.items }
    ensures same { IfOk result (λ left. so_far pages.new.items blocks.new.items left.items ≡ so_far pages.old.items blocks.old.items entries.items) }
    ensures laid { IfOk result (λ left. AreLaid pages.new.items blocks.new.items left.items) }
    ensures room { IfOk result (λ left. length left.items < MAX_ITEMS) }
{
    if !ends && entries.len() < MAX_ITEMS {
        return Ok(entries);
    }
    let mut left = page_room(alloc, pages, replace(blocks, Vec::new(alloc)))?;
    lay_block(alloc, &mut left, entries, older)?;
    *blocks = left;
    Ok(Vec::new(alloc))
}

/// Entries that are laid into full blocks and pages as they come. What an older map has too is shared
/// with it: entries that are equal, and blocks of which all entries are.
#[derive(Debug, Drop)]
pub struct Maker<'a, V> {
    alloc: Global,
    pages: Vec<Page<V>>,
    blocks: Vec<Block<V>>,
    entries: Vec<Entry<V>>,
    len: usize,
    rest: Rest<'a, V>,
    last: Option<Older<'a, V>>,
    begun: Option<&'a Block<V>>,
}

impl<'a, V> Model for Maker<'a, V> {
    ghost use Rattle.std.specs.Prelude.{List};
    ghost use Rattle.cfg_entries.specs.EntryMap.{Pair};
    ghost use Rattle.cfg_entries.specs.Making.{so_far, IsMaking};

    ghost Value = { List (Pair V) };

    ghost view = { λ m. so_far m.pages.items m.blocks.items m.entries.items };

    ghost invariant = { λ m. IsMaking m.pages.items m.blocks.items m.entries.items m.len };
}

impl<'a, V: Same + Drop> Maker<'a, V> {
    /// No entries, beside an older map.
    pub fn beside(alloc: Global, older: &'a Entries<V>) -> Maker<'a, V>
        ensures { result ≡ [] }
    {
        Maker {
            alloc,
            pages: Vec::new(alloc),
            blocks: Vec::new(alloc),
            entries: Vec::new(alloc),
            len: 0,
            rest: older.iter(),
            last: None,
            begun: None,
        }
    }

    /// One more entry at the end.
    pub fn push(self, path: Path, value: V) -> Result<Maker<'a, V>, NoMemory>
        ensures { IfOk result (λ maker. maker ≡ self.entry ++ (path, value) ∷ []) }
    {
        let Maker {
            alloc,
            mut pages,
            mut blocks,
            entries,
            len,
            mut rest,
            last,
            begun,
        } = self;
        // There is no memory for as many entries as no number counts.
        if len == usize::MAX {
            return Err(NoMemory);
        }
        let last = sought(&mut rest, last, &path);
        let block = block_at(&last);
        let mut entries = make_room(
            alloc,
            &mut pages,
            &mut blocks,
            entries,
            block.is_some(),
            begun,
        )?;
        let begun = if entries.is_empty() { block } else { begun };
        entries.push(shared_or_new(alloc, entry_of(&last), path, value)?)?;
        Ok(Maker {
            alloc,
            pages,
            blocks,
            entries,
            len: len + 1,
            rest,
            last,
            begun,
        })
    }

    /// The map of these entries.
    pub fn finish(self) -> Result<Entries<V>, NoMemory>
        requires { IsStrictlySortedBy path_cmp (keys_of self) }
        ensures { IfOk result (λ made. made.entries ≡ self.entry) }
    {
        let Maker {
            alloc,
            mut pages,
            blocks,
            entries,
            len,
            begun,
            ..
        } = self;
        let mut blocks = page_room(alloc, &mut pages, blocks)?;
        lay_block(alloc, &mut blocks, entries, begun)?;
        lay_page(alloc, &mut pages, blocks)?;
        Ok(Entries::of(alloc, pages, len))
    }
}
