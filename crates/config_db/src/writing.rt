//! How the entry that a step makes is written to the journal, and how it is found out whether one in flight is kept.

ghost use Rattle.std.specs.Prelude.{◌≡◌, IfOk, IfSome, None, OnErr};
ghost use Rattle.commit_journal.specs.Journal.{IsInFlight};
ghost use Rattle.commit_ledger.specs.Rules.{Follows};
ghost use Rattle.config_core.specs.Plan.{made_in};
ghost use Rattle.stored_ledger.specs.declared.change.Change.TheVariants.{Entry as EntryMore};
ghost use Rattle.stored_ledger.specs.Growing.{SettlesList};
ghost use Rattle.stored_ledger.specs.Standing.{Stands};
ghost use Rattle.stored_ledger.specs.Writable.{IsWritable};
ghost use Rattle.config_db.specs.Writing.{IsEntryWritten, IsWritten};

use cfg_base::NoMemory;
use commit_journal::Journal;
use commit_ledger::{Entry, Ledger};
use config_core::{Outcome, Prepared};
use disk_model::{Disk, DiskDone};
use std::alloc::Global;
use stored_ledger::{Change, add_entry, entry_keeps_ranges, settle_list};

/// Writes an entry. A fault leaves it in flight.
fn write_entry<D: Disk>(
    alloc: Global,
    journal: &mut Journal<D>,
    ledger: &Ledger,
    entry: &Entry,
) -> Result<Outcome, NoMemory>
    requires stands { Stands journal.old ledger.now }
    requires writable { IsWritable entry.now }
    requires follows { Follows ledger.now entry.now }
    ensures ok { IfOk result (λ outcome. IsEntryWritten ledger.now entry.now outcome journal.old journal.new) }
    ensures err { OnErr result (journal.new ≡ journal.old) }
{
    entry_keeps_ranges(entry);
    match add_entry(alloc, journal, ledger, entry) {
        Ok(DiskDone::Done) => Ok(Outcome::Done),
        Ok(DiskDone::Failed) => Ok(Outcome::Fault),
        Err(NoMemory) => Err(NoMemory),
    }
}

/// Writes the entry that a step makes, if it makes one.
pub(crate) fn write<D: Disk>(
    alloc: Global,
    journal: &mut Journal<D>,
    ledger: &Ledger,
    prepared: &Prepared,
) -> Result<Outcome, NoMemory>
    requires stands { Stands journal.old ledger.now }
    requires writable { IfSome (made_in prepared.now.effect) (λ made. IsWritable made.entry) }
    requires follows { IfSome (made_in prepared.now.effect) (λ made. Follows ledger.now made.entry) }
    ensures ok { IfOk result (λ outcome.
        IsWritten ledger.now (made_in prepared.now.effect) outcome journal.old journal.new) }
    ensures err { OnErr result (journal.new ≡ journal.old) }
{
    match prepared.entry() {
        None => Ok(Outcome::Done),
        Some(entry) => write_entry(alloc, journal, ledger, entry),
    }
}

/// Whether the entry in flight is kept; none where a disk failed.
pub(crate) fn find_out<D: Disk>(journal: &mut Journal<D>) -> Option<bool>
    requires { IsInFlight journal.old.flight }
    ensures { SettlesList EntryMore result journal.old journal.new }
{
    settle_list(journal, Change::Entry)
}
