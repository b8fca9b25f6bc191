//! The entries from a place on, where those in order are cut in two.

ghost use Rattle.std.specs.Prelude.{◌≡◌};
ghost use Rattle.std.specs.Map.{keys_of};
ghost use Rattle.std.specs.List.Sorted.{IsStrictlySortedBy};
ghost use Rattle.cfg_base.specs.Order.{path_cmp};
ghost use Rattle.cfg_entries.specs.Rows.{rows_of, AreBlocks, ArePages};
ghost use Rattle.cfg_entries.specs.Cuts.{in_front, behind, begins, page_begins, IsCutRow};

use crate::entry::Entry;
use crate::layers::{Block, Page};
use cfg_base::Path;

/// Where entries are cut.
#[derive(Clone, Copy, Debug, PartialEq, Eq)]
pub enum Cut {
    /// Before a path.
    Before,
    /// After a path and all below it.
    Behind,
}

fn is_in_front(cut: Cut, at: &Path, path: &Path) -> bool
    ensures { result ≡ in_front cut at.now path.now }
{
    match cut {
        Cut::Before => path < at,
        Cut::Behind => path <= at || path.is_below(at),
    }
}

/// The entries that don't stand before the cut.
pub fn entries_behind<'a, V: Drop>(entries: &'a [Entry<V>], cut: Cut, at: &Path) -> &'a [Entry<V>]
    requires { IsStrictlySortedBy path_cmp (keys_of entries.now) }
    ensures { result.now ≡ behind (in_front cut at.now) entries.now }
{
    let count = entries.partition_point(|entry| is_in_front(cut, at, entry.path()));
    &entries[count..]
}

fn begins<V: Drop>(block: &Block<V>, cut: Cut, at: &Path) -> bool
    ensures { result ≡ begins (in_front cut at.now) block.now }
{
    match block.items().first() {
        None => false,
        Some(entry) => is_in_front(cut, at, entry.path()),
    }
}

/// The block in which the cut is.
pub fn cut_block<V: Drop>(blocks: &[Block<V>], cut: Cut, at: &Path) -> usize
    requires { AreBlocks blocks.now }
    ensures { IsCutRow (in_front cut at.now) blocks.now result }
{
    let count = blocks.partition_point(|block| begins(block, cut, at));
    count.saturating_sub(1)
}

fn page_begins<V: Drop>(page: &Page<V>, cut: Cut, at: &Path) -> bool
    ensures { result ≡ page_begins (in_front cut at.now) page.now }
{
    match page.items().first() {
        None => false,
        Some(block) => begins(block, cut, at),
    }
}

/// The page in which the cut is.
pub fn cut_page<V: Drop>(pages: &[Page<V>], cut: Cut, at: &Path) -> usize
    requires { ArePages pages.now }
    ensures { IsCutRow (in_front cut at.now) (rows_of pages.now) result }
{
    let count = pages.partition_point(|page| page_begins(page, cut, at));
    count.saturating_sub(1)
}
