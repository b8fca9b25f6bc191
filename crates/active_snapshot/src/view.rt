//! The view of what a list of entries leaves.

ghost use Rattle.std.specs.Prelude.{◌≡◌, ◌≤◌, ◌+◌, IfOk, IfSome};
ghost use Rattle.std.specs.Arc.{arc_value};
ghost use Rattle.std.specs.Option.{option_map};
ghost use Rattle.cfg_tree.specs.Full.{IsWithin};
ghost use Rattle.commit_ledger.specs.Kept.{active_of, append_entry, is_revert_due, HasOneWaiting, NumberFits, RoomFor};
ghost use Rattle.commit_ledger.specs.Listing.{IsListing};
ghost use Rattle.commit_ledger.specs.declared.limit.TheConstants.{MAX_ENTRIES};
ghost use Rattle.active_snapshot.specs.Expanded.{ComesWith, IsExpanded};

use crate::copying::copy_of;
use cfg_base::{Bytes, Moment, NoMemory};
use cfg_tree::{Full, Tree};
use commit_ledger::{Entry, Ledger, Pending};
use std::alloc::Global;
use std::marker::Model;
use std::sync::Arc;

/// What a list of entries leaves, with the expansion of its active configuration.
#[derive(Drop)]
pub struct Shown {
    ledger: Ledger,
    full: Arc<Full, Global>,
}

impl Model for Shown {
    ghost use Rattle.std.specs.Arc.{arc_value};
    ghost use Rattle.std.specs.Coded.{codes};
    ghost use Rattle.cfg_tree.specs.Full.{IsWithin};
    ghost use Rattle.cfg_tree.specs.Statements.{statements_code};
    ghost use Rattle.commit_ledger.specs.Kept.{Kept};
    ghost use Rattle.active_snapshot.specs.Expanded.{IsExpanded};

    ghost Value = { Kept };

    ghost coded = { Prim.hlevel (codes, statements_code) };

    ghost view = { λ s. s.ledger };

    ghost invariant = { λ s. IsExpanded s.ledger (arc_value s.full) × IsWithin (arc_value s.full) };
}

impl Shown {
    /// The view of a ledger's list.
    pub fn first(alloc: Global, ledger: &Ledger, full: Full) -> Result<Shown, NoMemory>
        requires expanded { IsExpanded ledger.now full }
        requires within { IsWithin full }
        ensures { IfOk result (λ view. view ≡ ledger.now) }
    {
        Ok(Shown {
            ledger: ledger.copy(alloc)?,
            full: Arc::new(alloc, full)?,
        })
    }

    /// The view after one more entry. One that is no commit leaves the expansion as it was, and shares it.
    pub fn then(&self, alloc: Global, entry: &Entry, full: Option<Full>) -> Result<Shown, NoMemory>
        requires room { RoomFor self.now entry.now }
        requires number { NumberFits self.now entry.now }
        requires one { HasOneWaiting (append_entry self.now entry.now) }
        requires full { ComesWith entry.now full }
        requires within { IfSome full (λ full. IsWithin full) }
        ensures { IfOk result (λ view. view ≡ append_entry self.now entry.now) }
    {
        Ok(Shown {
            ledger: self.ledger_with(alloc, entry)?,
            full: self.full_with(alloc, entry, full)?,
        })
    }

    fn ledger_with(&self, alloc: Global, entry: &Entry) -> Result<Ledger, NoMemory>
        requires room { RoomFor self.now entry.now }
        requires number { NumberFits self.now entry.now }
        requires one { HasOneWaiting (append_entry self.now entry.now) }
        ensures { IfOk result (λ ledger. ledger ≡ append_entry self.now entry.now) }
    {
        let mut ledger = self.ledger.copy(alloc)?;
        let ready = ledger.prepare(copy_of(entry)?)?;
        ledger.accept(ready);
        Ok(ledger)
    }

    fn full_with(
        &self,
        alloc: Global,
        entry: &Entry,
        full: Option<Full>,
    ) -> Result<Arc<Full, Global>, NoMemory>
        requires full { ComesWith entry.now full }
        requires within { IfSome full (λ full. IsWithin full) }
        ensures expanded { IfOk result (λ full. IsExpanded (append_entry self.now entry.now) (arc_value full)) }
        ensures within { IfOk result (λ full. IsWithin (arc_value full)) }
    {
        let _ = entry;
        match full {
            Some(full) => Ok(Arc::new(alloc, full)?),
            None => Ok(Arc::try_clone(&self.full)?),
        }
    }

    /// The active configuration.
    pub fn active(&self) -> &Tree
        ensures { result.now ≡ active_of self.now }
    {
        self.ledger.active()
    }

    /// The active configuration with all that its groups give.
    pub fn full(&self) -> &Full
        ensures expanded { IsExpanded self.now result.now }
        ensures within { IsWithin result.now }
    {
        &self.full
    }

    /// The number of entries.
    pub fn front(&self) -> u64
        ensures count { result ≡ self.now.count }
        ensures within { result ≤ MAX_ENTRIES + 1 }
    {
        self.ledger.count()
    }

    /// The deadline of an unconfirmed run.
    pub fn pending(&self) -> Option<Pending>
        ensures { result
            ≡ option_map (λ run. record { deadline = run.deadline; target = run.target.number }) self.now.pending }
    {
        self.ledger.pending()
    }

    /// Whether an unconfirmed run has missed its deadline.
    pub fn is_revert_due(&self, moment: Moment) -> bool
        ensures { result ≡ is_revert_due self.now moment }
    {
        self.ledger.is_revert_due(moment)
    }

    /// The commits that are kept, the last one first, as they are shown.
    pub fn history_lines(&self, alloc: Global) -> Result<Bytes, NoMemory>
        ensures { IfOk result (IsListing self.now) }
    {
        self.ledger.history_lines(alloc)
    }
}
