//! A ledger of the records of a journal.

ghost use Rattle.std.specs.Prelude.{◌≡◌, ◌≤◌, ◌↔◌, ◌+◌, ◌∷◌, ◌||◌, ℕ, Some, None, is_some, IsTrue, IsNone, IsErrOf, IfSome, IfOk, OnOk};
ghost use Rattle.record_code.specs.Listed.{record_of, records_of};
ghost use Rattle.commit_ledger.specs.declared.limit.TheConstants.{MAX_ENTRIES};
ghost use Rattle.commit_ledger.specs.declared.entry.Commit.{Commit};
ghost use Rattle.commit_ledger.specs.declared.entry.Entry.{Entry};
ghost use Rattle.commit_ledger.specs.declared.opening.LedgerFault.{LedgerFault};
ghost use Rattle.commit_ledger.specs.Kept.{Kept, append_entry, opened, HasOneWaiting, NumberFits, RoomFor};
ghost use Rattle.commit_ledger.specs.Reading.{BeginsBadly, IsBegun, IsFirstCommit, Opens, GoesOn, GoesThrough, ReadsAs, IsFirstBad, IsUnread};
ghost use Rattle.commit_ledger.specs.Rules.{Follows, CommitFollows, ConfirmFollows, ScheduledFollows, ClearedFollows, IsCarried};

use crate::entry::{Cleared, Commit, Confirm, Entry, Scheduled, Via};
use crate::kinds::KEEP;
use crate::ledger::{Ledger, ROOM};
use crate::limit::MAX_ENTRIES;
use crate::reading::{entry_of, new_behind};
use crate::restoring::restore;
use cfg_base::{MOMENT_MAX, NoMemory, Word};
use cfg_tree::LedgerCheck;
use record_code::{Payloads, Placed};
use std::alloc::Global;
use thiserror::Error;

/// The offset of a journal's first record, where a journal without one breaks the rules.
const FIRST_RECORD: u64 = 17;

/// Why records aren't those of a list of commits.
#[derive(Clone, Copy, Debug, PartialEq, Eq, Error)]
pub enum LedgerFault {
    /// The first record that breaks a rule has its gate there.
    #[error("bad record at {offset}")]
    BadRecord { offset: u64 },
    #[error("out of memory")]
    NoMemory,
}

impl From<NoMemory> for LedgerFault {
    ghost use Rattle.commit_ledger.specs.declared.opening.LedgerFault.TheVariants.{NoMemory as Wanting};

    ghost from_gives = { λ _ fault. fault ≡ Wanting };

    fn from(_: NoMemory) -> LedgerFault {
        LedgerFault::NoMemory
    }
}

fn opened(alloc: Global, commit: Commit) -> Result<Ledger, NoMemory>
    requires { commit.number ≡ 1 }
    ensures { IfOk result (λ ledger. ledger ≡ opened commit) }
{
    let older = Vec::with_capacity(alloc, ROOM)?;
    Ok(Ledger {
        count: 1,
        moment: commit.moment,
        last: commit,
        older,
        pending: None,
        scheduled: None,
    })
}

fn is_same_word(one: &Word, other: &Word) -> bool
    ensures { IsTrue result ↔ (one.now ≡ other.now) }
{
    one.as_bytes() == other.as_bytes()
}

/// Whether a commit has the user, the comment and the map of one that was scheduled.
fn is_as_scheduled(waiting: &Scheduled, commit: &Commit) -> bool
    ensures { IsTrue result ↔ (commit.now.user ≡ waiting.now.user) × (commit.now.comment ≡ waiting.now.comment)
        × (commit.now.tree ≡ waiting.now.tree) }
{
    is_same_word(commit.user.as_word(), waiting.user.as_word())
        && is_same_word(&commit.comment, &waiting.comment)
        && commit.tree.same(&waiting.tree)
}

fn is_by_session(via: Via) -> bool
    ensures { IsTrue result ↔ (via ≡ Via.Cli) }
{
    match via {
        Via::Cli => true,
        Via::Other => false,
    }
}

/// Whether a commit is the one that was scheduled, at its time or later.
fn is_carried(waiting: &Scheduled, commit: &Commit) -> bool
    ensures { IsTrue result ↔ IsCarried waiting.now commit.now }
{
    is_as_scheduled(waiting, commit)
        && is_by_session(commit.via)
        && commit.minutes == 0
        && waiting.at <= commit.moment
}

fn first_commit(entry: Entry) -> Option<Commit>
    ensures some { IfSome result (IsFirstCommit entry) }
    ensures none { IsNone result → (commit : Commit) → IsFirstCommit entry commit → ⊥ }
{
    match entry {
        Entry::Commit(commit) if commit.number == 1 && commit.minutes == 0 => Some(commit),
        _ => None,
    }
}

/// The ledger of a first record.
fn open<J: LedgerCheck>(alloc: Global, placed: &Placed, judge: &J) -> Result<Ledger, LedgerFault>
    ensures ok { IfOk result (Opens (J.accepted judge.now) (record_of placed.now)) }
    ensures bad { (offset : ℕ) → IsErrOf result (LedgerFault.BadRecord offset) → (offset ≡ placed.now.offset)
        × ((next : Kept) → Opens (J.accepted judge.now) (record_of placed.now) next → ⊥) }
{
    let bad = LedgerFault::BadRecord {
        offset: placed.offset,
    };
    let Some(entry) = entry_of(alloc, false, placed, judge)? else {
        return Err(bad);
    };
    let Some(commit) = first_commit(entry) else {
        return Err(bad);
    };
    Ok(opened(alloc, commit)?)
}

/// The ledger that records begin with, whether a commit as it is written now is among those, and the records after them.
fn begin<'a, J: LedgerCheck>(
    alloc: Global,
    first: &Placed,
    behind: &'a [Placed],
    judge: &J,
) -> Result<(Ledger, bool, &'a [Placed]), LedgerFault>
    ensures ok { IfOk result (λ read. IsBegun (J.accepted judge.now) (first.now ∷ behind.now) read.0 read.1 read.2.now) }
    ensures bad { (offset : ℕ) → IsErrOf result (LedgerFault.BadRecord offset)
        → BeginsBadly (J.accepted judge.now) first.now behind.now offset }
{
    if first.kind == KEEP {
        return restore(alloc, first, behind, judge);
    }
    match open(alloc, first, judge) {
        Err(fault) => Err(fault),
        Ok(ledger) => Ok((ledger, new_behind(false, first), behind)),
    }
}

/// The ledger of a first record and those after it.
fn of_records<J: LedgerCheck>(
    alloc: Global,
    first: &Placed,
    rest: &[Placed],
    judge: &J,
) -> Result<Ledger, LedgerFault>
    ensures ok { IfOk result (ReadsAs (J.accepted judge.now) (records_of (first.now ∷ rest.now))) }
    ensures bad { (offset : ℕ) → IsErrOf result (LedgerFault.BadRecord offset)
        → IsUnread (J.accepted judge.now) (first.now ∷ rest.now) offset }
{
    match begin(alloc, first, rest, judge) {
        Err(fault) => Err(fault),
        Ok((mut ledger, new, further)) => match ledger.read_on(alloc, new, further, judge) {
            Err(fault) => Err(fault),
            Ok(()) => Ok(ledger),
        },
    }
}

impl Ledger {
    fn has_room(&self, commit: &Commit) -> bool
        ensures { IsTrue result ↔ RoomFor self.now (Entry.Commit commit.now) }
    {
        if commit.minutes == 0 {
            self.count <= MAX_ENTRIES
        } else {
            self.count < MAX_ENTRIES
        }
    }

    /// Whether a commit is the one that is scheduled, or none is.
    fn may_come(&self, commit: &Commit) -> bool
        ensures { IsTrue result ↔ IfSome self.now.scheduled (λ waiting. IsCarried waiting commit.now) }
    {
        match &self.scheduled {
            Some(waiting) => is_carried(waiting, commit),
            None => true,
        }
    }

    fn commit_follows(&self, commit: &Commit) -> bool
        ensures exact { IsTrue result ↔ CommitFollows self.now commit.now }
        ensures number { IsTrue result → commit.now.number ≤ self.now.count + 1 }
    {
        commit.number == self.last().number + 1
            && self.moment() <= commit.moment
            && self.has_room(commit)
            && self.may_come(commit)
    }

    fn confirm_follows(&self, confirm: &Confirm) -> bool
        ensures exact { IsTrue result ↔ ConfirmFollows self.now confirm.now }
        ensures room { IsTrue result → RoomFor self.now (Entry.Confirm confirm.now) }
    {
        // While a run waits nothing is scheduled, so no room has to be kept.
        let _ = self.scheduled();
        confirm.number == self.last().number
            && self.moment() <= confirm.moment
            && self.pending().is_some()
    }

    fn scheduled_follows(&self, waiting: &Scheduled) -> bool
        ensures { IsTrue result ↔ ScheduledFollows self.now waiting.now }
    {
        waiting.number == self.last().number + 1
            && self.moment() <= waiting.moment
            && waiting.moment < waiting.at
            && waiting.at.seconds() < MOMENT_MAX
            && self.pending().is_none()
            && self.scheduled.is_none()
            && self.count < MAX_ENTRIES
    }

    fn cleared_follows(&self, cleared: &Cleared) -> bool
        ensures exact { IsTrue result ↔ ClearedFollows self.now cleared.now }
        ensures room { IsTrue result → RoomFor self.now (Entry.Cleared cleared.now) }
    {
        cleared.number == self.last().number + 1
            && self.moment() <= cleared.moment
            && self.scheduled.is_some()
    }

    fn follows(&self, entry: &Entry) -> bool
        ensures exact { IsTrue result ↔ Follows self.now entry.now }
        ensures number { IsTrue result → NumberFits self.now entry.now }
        ensures room { IsTrue result → RoomFor self.now entry.now }
        ensures one { IsTrue result → HasOneWaiting (append_entry self.now entry.now) }
    {
        match entry {
            Entry::Commit(commit) => self.commit_follows(commit),
            Entry::Confirm(confirm) => self.confirm_follows(confirm),
            Entry::Scheduled(waiting) => self.scheduled_follows(waiting),
            Entry::Cleared(cleared) => self.cleared_follows(cleared),
        }
    }

    /// Whether a commit as it is written now has come, or is scheduled: behind either no former commit is read.
    fn is_new(&self, new: bool) -> bool
        ensures { result ≡ (new || is_some self.now.scheduled) }
    {
        new || self.scheduled.is_some()
    }

    /// Takes in the entry of a further record.
    fn go_on<J: LedgerCheck>(
        &mut self,
        alloc: Global,
        new: bool,
        placed: &Placed,
        judge: &J,
    ) -> Result<(), LedgerFault>
        ensures ok { OnOk result (GoesOn (J.accepted judge.now) new self.old (record_of placed.now) self.new) }
        ensures bad { (offset : ℕ) → IsErrOf result (LedgerFault.BadRecord offset) → (offset ≡ placed.now.offset)
            × (self.new ≡ self.old) × ((next : Kept) → GoesOn (J.accepted judge.now) new self.old (record_of placed.now) next → ⊥) }
    {
        let bad = LedgerFault::BadRecord {
            offset: placed.offset,
        };
        let Some(entry) = entry_of(alloc, self.is_new(new), placed, judge)? else {
            return Err(bad);
        };
        if !self.follows(&entry) {
            return Err(bad);
        }
        let ready = self.prepare_shared(alloc, entry)?;
        self.accept(ready);
        Ok(())
    }

    /// Takes in the entries of further records, up to the first one that breaks a rule.
    fn read_on<J: LedgerCheck>(
        &mut self,
        alloc: Global,
        new: bool,
        records: &[Placed],
        judge: &J,
    ) -> Result<(), LedgerFault>
        ensures ok { OnOk result (GoesThrough (J.accepted judge.now) new self.old (records_of records.now) self.new) }
        ensures bad { (offset : ℕ) → IsErrOf result (LedgerFault.BadRecord offset)
            → IsFirstBad (J.accepted judge.now) new self.old records.now offset }
    {
        let mut seen = new;
        for placed in records {
            if let Err(fault) = self.go_on(alloc, seen, placed, judge) {
                return Err(fault);
            }
            seen = new_behind(seen, placed);
        }
        Ok(())
    }

    /// The ledger of a journal's records, or the first record that breaks a rule: at offset 17 where there is none.
    pub fn of<J: LedgerCheck>(
        alloc: Global,
        payloads: &Payloads,
        judge: &J,
    ) -> Result<Ledger, LedgerFault>
        ensures ok { IfOk result (ReadsAs (J.accepted judge.now) (records_of payloads.now)) }
        ensures bad { (offset : ℕ) → IsErrOf result (LedgerFault.BadRecord offset)
            → IsUnread (J.accepted judge.now) payloads.now offset }
    {
        match payloads.as_slice() {
            [] => Err(LedgerFault::BadRecord {
                offset: FIRST_RECORD,
            }),
            [first, rest @ ..] => of_records(alloc, first, rest, judge),
        }
    }
}
