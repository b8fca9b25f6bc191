//! Copies of the newest entries that were added, for who asks for them, as a backup's master does.
//!
//! 1. Nothing is copied unless that is asked.
//! 2. At most `MOST_HELD` are held: the next one is held alone. So a run of any length takes bounded memory.
//! 3. Where memory runs out for a copy no entry is held: what is held is always the end of the list. No entry waits for a copy.

ghost use Rattle.std.specs.Prelude.{◌≡◌, ◌≤◌, [], length, None, IfSome};
ghost use Rattle.config_core.specs.Plan.{made_in};
ghost use Rattle.config_db.specs.Appended.{HoldsMade, HoldsSettled, IsPut};

use commit_ledger::{Entry, EntryList};
use config_core::{Outcome, Prepared};
use std::alloc::Global;
use std::marker::Model;

/// So many entries are held at most.
pub const MOST_HELD: u64 = 50;

/// The newest entries, and a copy of the one in flight.
pub(crate) struct Held {
    is_asked: bool,
    entries: EntryList,
    waits: Option<Entry>,
}

impl Drop for Held {
    fn drop(self) {
        let Held {
            is_asked: _,
            entries,
            waits,
        } = self;
        drop(entries);
        drop(waits);
    }
}

impl Model for Held {
    ghost use Rattle.std.specs.Prelude.{◌≤◌, length};
    ghost use Rattle.std.specs.Coded.{codes};
    ghost use Rattle.cfg_tree.specs.Statements.{statements_code};
    ghost use Rattle.config_db.specs.Appended.{HeldView};
    ghost use Rattle.config_db.specs.declared.holding.TheConstants.{MOST_HELD};

    ghost Value = { HeldView };

    ghost coded = { Prim.hlevel (codes, statements_code) };

    ghost view = { λ h. record { entries = h.entries; waits = h.waits } };

    ghost invariant = { λ h. length h.entries ≤ MOST_HELD };
}

/// Puts a copy of an entry behind others. Without one none of them stay; of as many as may be none of the others.
fn put(entries: &mut EntryList, copy: Option<Entry>)
    requires few { length entries.old ≤ MOST_HELD }
    ensures put { IsPut copy entries.old entries.new }
    ensures few { length entries.new ≤ MOST_HELD }
{
    let Some(copy) = copy else {
        entries.clear();
        return;
    };
    if entries.count() == MOST_HELD {
        entries.clear();
    }
    if entries.push(copy).is_err() {
        entries.clear();
    }
}

impl Held {
    /// Nothing is held, and nothing was asked.
    pub(crate) fn none(alloc: Global) -> Held
        ensures { result ≡ record { entries = []; waits = None } }
    {
        Held {
            is_asked: false,
            entries: EntryList::none(alloc),
            waits: None,
        }
    }

    /// Entries are held from now on.
    pub(crate) fn ask(&mut self)
        ensures { self.new ≡ self.old }
    {
        self.is_asked = true;
    }

    /// Those that are held.
    pub(crate) fn entries(&self) -> &EntryList
        ensures entries { result.now ≡ self.now.entries }
        ensures few { length result.now ≤ MOST_HELD }
    {
        &self.entries
    }

    /// A copy of an entry, where it is asked and there is memory for it.
    fn copy_of(&self, entry: &Entry) -> Option<Entry>
        ensures { IfSome result (λ copy. copy ≡ entry.now) }
    {
        if self.is_asked {
            entry.copy().ok()
        } else {
            None
        }
    }

    /// Holds the entry that a step made, where it was written. Where a disk failed a copy of it waits.
    pub(crate) fn hold(&mut self, prepared: &Prepared, outcome: Outcome)
        ensures { HoldsMade (made_in prepared.now.effect) outcome self.old self.new }
    {
        match (prepared.entry(), outcome) {
            (Some(entry), Outcome::Done) => {
                let copy = self.copy_of(entry);
                put(&mut self.entries, copy);
            }
            (Some(entry), Outcome::Fault) => self.waits = self.copy_of(entry),
            (None, _) => {}
        }
    }

    /// Holds the entry that was in flight, where it is kept.
    pub(crate) fn settle(&mut self, is_kept: bool)
        ensures { HoldsSettled is_kept self.old self.new }
    {
        let copy = self.waits.take();
        if is_kept {
            put(&mut self.entries, copy);
        }
    }
}
