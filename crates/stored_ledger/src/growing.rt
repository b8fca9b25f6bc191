//! How a list on two disks becomes another one, and how it is found out whether it is made.

ghost use Rattle.std.specs.Prelude.{◌≡◌, ◌∷◌, [], length, IfOk, OnErr};
ghost use Rattle.commit_check.specs.Accepts.{Accepts};
ghost use Rattle.commit_journal.specs.Journal.{IsIdle, IsInFlight};
ghost use Rattle.commit_ledger.specs.Payload.{entry_record};
ghost use Rattle.commit_ledger.specs.Rules.{IsEntry};
ghost use Rattle.stored_ledger.specs.declared.change.Change.TheVariants.{Entry as EntryMore, Whole};
ghost use Rattle.stored_ledger.specs.Appending.{IsAppend};
ghost use Rattle.stored_ledger.specs.Growing.{AddsEntry, ReplacesList, SettlesList};
ghost use Rattle.stored_ledger.specs.Standing.{CanKeep, Stands};
ghost use Rattle.stored_ledger.specs.Stored.{IsNext};

use crate::change::Change;
use cfg_base::NoMemory;
use commit_journal::{Journal, Settled};
use commit_ledger::{Entry, Ledger, payload_of};
use disk_model::{Disk, DiskDone};
use record_code::{Encoded, encode};
use std::alloc::Global;

/// The record of an entry.
fn record_of(alloc: Global, entry: &Entry) -> Result<Encoded, NoMemory>
    requires { IsEntry Accepts entry.now }
    ensures { IfOk result (λ body. body ≡ entry_record entry.now ∷ []) }
{
    match payload_of(alloc, entry) {
        Ok(payload) => encode(alloc, entry.kind(), &payload),
        Err(NoMemory) => Err(NoMemory),
    }
}

/// Writes a record. A fault leaves it in flight.
fn append<D: Disk>(journal: &mut Journal<D>, body: &Encoded) -> DiskDone
    requires idle { IsIdle journal.old }
    requires one { length body.now ≡ 1 }
    ensures { IsAppend body.now result journal.old journal.new }
{
    match journal.append(body) {
        Ok(()) => DiskDone::Done,
        Err(_) => DiskDone::Failed,
    }
}

/// Writes the record of an entry, after an image of the list where the file would pass its limit.
fn write_record<D: Disk>(
    alloc: Global,
    journal: &mut Journal<D>,
    ledger: &Ledger,
    entry: &Entry,
    body: &Encoded,
) -> Result<DiskDone, NoMemory>
    requires stands { Stands journal.old ledger.now }
    requires next { IsNext ledger.now entry.now }
    requires body { body.now ≡ entry_record entry.now ∷ [] }
    ensures ok { IfOk result (λ done. AddsEntry ledger.now entry.now done journal.old journal.new) }
    ensures err { OnErr result (journal.new ≡ journal.old) }
{
    if journal.needs_rotation(body.as_bytes().len() as u64) {
        let image = ledger.keep_image(alloc)?;
        match journal.rotate(&image) {
            Ok(()) => Ok(append(journal, body)),
            Err(_) => Ok(DiskDone::Failed),
        }
    } else {
        Ok(append(journal, body))
    }
}

/// Adds an entry that may be the next one of the list. Where the file would pass its limit with it, the list is written anew to the
/// other file first. All memory is taken before a disk is called. A fault leaves the record in flight, or that image.
pub fn add_entry<D: Disk>(
    alloc: Global,
    journal: &mut Journal<D>,
    ledger: &Ledger,
    entry: &Entry,
) -> Result<DiskDone, NoMemory>
    requires stands { Stands journal.old ledger.now }
    requires next { IsNext ledger.now entry.now }
    ensures ok { IfOk result (λ done. AddsEntry ledger.now entry.now done journal.old journal.new) }
    ensures err { OnErr result (journal.new ≡ journal.old) }
{
    match record_of(alloc, entry) {
        Ok(body) => write_record(alloc, journal, ledger, entry, &body),
        Err(NoMemory) => Err(NoMemory),
    }
}

/// Writes a whole list in the place of the one that is there, to the other file. All memory is taken before a disk is called. A fault
/// leaves the list's image in flight.
pub fn replace_list<D: Disk>(
    alloc: Global,
    journal: &mut Journal<D>,
    whole: &Ledger,
) -> Result<DiskDone, NoMemory>
    requires idle { IsIdle journal.old }
    requires whole { CanKeep whole.now }
    ensures ok { IfOk result (λ done. ReplacesList whole.now done journal.old journal.new) }
    ensures err { OnErr result (journal.new ≡ journal.old) }
{
    let image = whole.keep_image(alloc)?;
    match journal.rotate(&image) {
        Ok(()) => Ok(DiskDone::Done),
        Err(_) => Ok(DiskDone::Failed),
    }
}

fn settle_entry<D: Disk>(journal: &mut Journal<D>) -> Option<bool>
    requires { IsInFlight journal.old.flight }
    ensures { SettlesList EntryMore result journal.old journal.new }
{
    match journal.settle() {
        Ok(Settled::Kept) => Some(true),
        Ok(Settled::NotKept) => Some(false),
        Err(_) => None,
    }
}

fn settle_whole<D: Disk>(journal: &mut Journal<D>) -> Option<bool>
    requires { IsInFlight journal.old.flight }
    ensures { SettlesList Whole result journal.old journal.new }
{
    let counted_b = journal.counts_b();
    match journal.settle() {
        Ok(_) => Some(journal.counts_b() != counted_b),
        Err(_) => None,
    }
}

/// Whether the list that a change would make is there; none where a disk failed. An entry that was to follow an image of the list
/// isn't there, whichever of the two files counts.
pub fn settle_list<D: Disk>(journal: &mut Journal<D>, change: Change) -> Option<bool>
    requires { IsInFlight journal.old.flight }
    ensures { SettlesList change result journal.old journal.new }
{
    match change {
        Change::Entry => settle_entry(journal),
        Change::Whole => settle_whole(journal),
    }
}
