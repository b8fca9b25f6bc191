//! A ledger of the records of a checkpoint.

ghost use Rattle.std.specs.Prelude.{take, ◌≡◌, ◌≢◌, ◌≤◌, ◌<◌, ◌⊎◌, ◌↔◌, ◌+◌, ◌++◌, ◌∷◌, [], ℕ, Option, Some, None, length, vec_capacity, IsSome, IsTrue, IsNone, IsErrOf, IfSome, IfOk, OnOk};
ghost use Rattle.std.specs.List.{AllByRecursion};
ghost use Rattle.std.specs.Option.{option_map};
ghost use Rattle.record_code.specs.declared.payloads.Placed.{Placed};
ghost use Rattle.record_code.specs.Listed.{record_of};
ghost use Rattle.commit_ledger.specs.declared.limit.TheConstants.{MAX_ENTRIES};
ghost use Rattle.commit_ledger.specs.declared.entry.Commit.{Commit};
ghost use Rattle.commit_ledger.specs.declared.entry.Entry.TheVariants.{Commit as CommitOf};
ghost use Rattle.commit_ledger.specs.declared.ledger.Run.{Run};
ghost use Rattle.commit_ledger.specs.declared.opening.LedgerFault.{LedgerFault};
ghost use Rattle.commit_ledger.specs.Checkpoint.{KeepForm, keep_bytes, first_of, AreConsecutive, AreInTime, IsAmong};
ghost use Rattle.commit_ledger.specs.Form.{KeepFits, keep_read};
ghost use Rattle.commit_ledger.specs.Kept.{Kept};
ghost use Rattle.commit_ledger.specs.Reading.{IsBegun};
ghost use Rattle.confirm_timer.specs.Deadline.{after_minutes};
ghost use Rattle.commit_ledger.specs.Restored.{IsApart, IsBadKeep, IsOrdered, IsReadKeep, IsRestored, far_row};
ghost use Rattle.commit_ledger.specs.Restoring.{AreBehind, AreReadBehind, HasRightNumbers, IsBadCheckpoint, IsBadCommit, IsKeep, IsReadBehind};
ghost use Rattle.commit_ledger.specs.Rules.{IsRecordOf};

use crate::entry::Commit;
use crate::fields::{take_u32, take_u64};
use crate::form::KeepRead;
use crate::kinds::{COMMIT, FORMER_COMMIT};
use crate::ledger::{Ledger, Run};
use crate::limit::MAX_ENTRIES;
use crate::opening::LedgerFault;
use crate::reading::{commit_in, new_after, new_behind};
use crate::sharing::beside_last;
use cfg_base::NoMemory;
use cfg_tree::LedgerCheck;
use confirm_timer::deadline_of;
use record_code::Placed;
use std::alloc::Global;

/// The most commits that are kept.
const KEPT: usize = 50;

/// The most commits of a checkpoint: those, and what an unconfirmed run goes back to.
const MOST_COMMITS: u32 = 51;

/// The fields of a checkpoint's first payload.
pub(crate) fn read_keep(bytes: &[u8]) -> Option<KeepRead>
    ensures some { IfSome result (λ keep. bytes.now ≡ keep_bytes (keep_read keep)) }
    ensures fits { IfSome result (λ keep. KeepFits (keep_read keep)) }
    ensures none { IsNone result → (f : KeepForm) → bytes.now ≢ keep_bytes f }
{
    let (count, rest) = take_u64(bytes)?;
    let (target, rest) = take_u64(rest)?;
    let (commits, rest) = take_u32(rest)?;
    if rest.is_empty() {
        Some(KeepRead {
            count,
            target,
            commits,
        })
    } else {
        None
    }
}

fn are_commits(records: &[Placed]) -> bool
    ensures { IsTrue result ↔ AllByRecursion (λ (p : Placed). (p.kind ≡ 1) ⊎ (p.kind ≡ 4)) records.now }
{
    match records {
        [] => true,
        [first, rest @ ..] => {
            (first.kind == FORMER_COMMIT || first.kind == COMMIT) && are_commits(rest)
        }
    }
}

fn has_right_numbers(keep: KeepRead) -> bool
    ensures { IsTrue result ↔ HasRightNumbers (keep_read keep) }
{
    1 <= keep.commits
        && keep.commits <= MOST_COMMITS
        && u64::from(keep.commits) <= keep.count
        && keep.count <= MAX_ENTRIES + 1
        && (keep.target == 0 || keep.count <= MAX_ENTRIES)
}

/// The records of so many commits, where they stand right after a checkpoint's first record.
fn commits_behind(keep: KeepRead, behind: &[Placed]) -> bool
    ensures { IsTrue result ↔ AreBehind (keep_read keep) behind.now }
{
    let commits = keep.commits as usize;
    commits <= behind.len() && are_commits(&behind[..commits])
}

/// Whether a checkpoint's first record keeps to its own rules, and so many commits' records stand after it.
pub(crate) fn is_keep(keep: KeepRead, behind: &[Placed]) -> bool
    ensures { IsTrue result ↔ IsKeep (keep_read keep) behind.now }
{
    has_right_numbers(keep) && commits_behind(keep, behind)
}

/// Puts the commit of a record after others.
fn push_commit<J: LedgerCheck>(
    alloc: Global,
    new: bool,
    placed: &Placed,
    judge: &J,
    commits: &mut Vec<Commit>,
) -> Result<(), LedgerFault>
    requires { length commits.old.items < vec_capacity commits.old }
    ensures capacity { vec_capacity commits.new ≡ vec_capacity commits.old }
    ensures ok { OnOk result (IsReadBehind (J.accepted judge.now) new placed.now commits.old.items commits.new.items) }
    ensures longer { OnOk result (length commits.new.items ≡ length commits.old.items + 1) }
    ensures bad { (offset : ℕ) → IsErrOf result (LedgerFault.BadRecord offset) → (offset ≡ placed.now.offset)
        × ((c : Commit) → IsRecordOf (J.accepted judge.now) new (record_of placed.now) (CommitOf c) → ⊥) }
{
    let Some(commit) = commit_in(alloc, new, placed, judge)? else {
        return Err(LedgerFault::BadRecord {
            offset: placed.offset,
        });
    };
    let shared = beside_last(alloc, commits, commit);
    commits.push_reserved(shared);
    Ok(())
}

/// Puts the commits of records after others, up to the first record that is of none.
pub(crate) fn read_commits<J: LedgerCheck>(
    alloc: Global,
    new: bool,
    records: &[Placed],
    judge: &J,
    commits: &mut Vec<Commit>,
) -> Result<(), LedgerFault>
    requires { length commits.old.items + length records.now ≤ vec_capacity commits.old }
    ensures capacity { vec_capacity commits.new ≡ vec_capacity commits.old }
    ensures ok { OnOk result (AreReadBehind (J.accepted judge.now) new records.now commits.old.items commits.new.items) }
    ensures bad { (offset : ℕ) → IsErrOf result (LedgerFault.BadRecord offset)
        → IsBadCommit (J.accepted judge.now) new records.now offset }
{
    match records {
        [] => Ok(()),
        [first, rest @ ..] => match push_commit(alloc, new, first, judge, commits) {
            Err(fault) => Err(fault),
            Ok(()) => {
                let seen = new_behind(new, first);
                read_commits(alloc, seen, rest, judge, commits)
            }
        },
    }
}

fn are_consecutive(commits: &[Commit]) -> bool
    ensures { IsTrue result ↔ AreConsecutive commits.now }
{
    match commits {
        [] => true,
        [first, rest @ ..] => match rest {
            [] => true,
            [second, ..] => {
                first.number < second.number
                    && second.number - first.number == 1
                    && are_consecutive(rest)
            }
        },
    }
}

fn are_in_time(commits: &[Commit]) -> bool
    ensures { IsTrue result ↔ AreInTime commits.now }
{
    match commits {
        [] => true,
        [first, rest @ ..] => match rest {
            [] => true,
            [second, ..] => first.moment <= second.moment && are_in_time(rest),
        },
    }
}

fn first_number(commits: &[Commit], other: u64) -> u64
    ensures { result ≡ first_of commits.now other }
{
    match commits {
        [] => other,
        [first, ..] => first.number,
    }
}

/// Whether commits have numbers that rise by one, and are 50 or begin with number 1.
fn is_ordered(commits: &[Commit]) -> bool
    ensures { IsTrue result ↔ IsOrdered commits.now }
{
    are_consecutive(commits) && (commits.len() == KEPT || first_number(commits, 0) == 1)
}

/// Takes out what stands before the commits that are kept.
fn take_far(commits: &mut Vec<Commit>) -> Option<Commit>
    requires { length commits.old.items ≤ 51 }
    ensures row { commits.old.items ≡ far_row result ++ commits.new.items }
    ensures few { length commits.new.items ≤ 50 }
    ensures full { length (far_row result) ≡ 1 → length commits.new.items ≡ 50 }
    ensures capacity { vec_capacity commits.new ≡ vec_capacity commits.old }
{
    if commits.len() > KEPT {
        Some(commits.remove(0))
    } else {
        None
    }
}

/// A copy of the first of these commits that has a number.
fn copy_of(commits: &[Commit], number: u64) -> Result<Option<Commit>, NoMemory>
    ensures some { IfOk result (λ o. IfSome o (λ copy. IsAmong copy commits.now × (copy.number ≡ number))) }
    ensures none { IfOk result (λ o. IsNone o → (c : Commit) → IsAmong c commits.now → c.number ≢ number) }
{
    match commits {
        [] => Ok(None),
        [first, rest @ ..] => {
            if first.number == number {
                Ok(Some(first.copy()?))
            } else {
                copy_of(rest, number)
            }
        }
    }
}

fn run_to(last: &Commit, target: Commit) -> Run
    ensures { result ≡ record { deadline = after_minutes last.now.moment last.now.minutes; target = target } }
{
    Run {
        deadline: deadline_of(last.moment, last.minutes),
        target,
    }
}

fn ledger_of(keep: KeepRead, older: Vec<Commit>, last: Commit, pending: Option<Run>) -> Ledger
    requires fits { (last.number ≤ keep.count) × (keep.count ≤ MAX_ENTRIES + 1) × (length older.items ≤ 49) × (50 ≤ vec_capacity older) }
    requires run { IsSome pending → keep.count ≤ MAX_ENTRIES }
    ensures { result ≡ record {
      count = keep.count;
      last = last;
      older = older.items;
      pending = option_map (λ (r : Run). record { deadline = r.deadline; target = r.target }) pending;
      scheduled = None;
      moment = last.moment;
    } }
{
    Ledger {
        count: keep.count,
        moment: last.moment,
        last,
        older,
        pending,
        scheduled: None,
    }
}

/// The ledger where a checkpoint states no target.
fn plain(keep: KeepRead, far: Option<Commit>, older: Vec<Commit>, last: Commit) -> Option<Ledger>
    requires parts { IsApart (far_row far) older.items last }
    requires stated { keep.target ≡ 0 }
    requires fits { (last.number ≤ keep.count) × (keep.count ≤ MAX_ENTRIES + 1) × (50 ≤ vec_capacity older) }
    ensures some { IfSome result (IsRestored (keep_read keep) (far_row far ++ (older.items ++ last ∷ []))) }
    ensures none { IsNone result → (kept : Kept)
        → IsRestored (keep_read keep) (far_row far ++ (older.items ++ last ∷ [])) kept → ⊥ }
{
    match far {
        Some(_) => None,
        None => Some(ledger_of(keep, older, last, None)),
    }
}

/// The ledger where the target stands before the commits that are kept.
fn with_far(keep: KeepRead, target: Commit, older: Vec<Commit>, last: Commit) -> Option<Ledger>
    requires parts { IsApart (target ∷ []) older.items last }
    requires stated { (keep.target ≢ 0) × (last.minutes ≢ 0) }
    requires fits { (last.number ≤ keep.count) × (keep.count ≤ MAX_ENTRIES) × (50 ≤ vec_capacity older) }
    ensures some { IfSome result (IsRestored (keep_read keep) (target ∷ [] ++ (older.items ++ last ∷ []))) }
    ensures none { IsNone result → (kept : Kept)
        → IsRestored (keep_read keep) (target ∷ [] ++ (older.items ++ last ∷ [])) kept → ⊥ }
{
    if target.number != keep.target || first_number(&older, last.number) <= target.number {
        return None;
    }
    let run = run_to(&last, target);
    Some(ledger_of(keep, older, last, Some(run)))
}

/// The ledger where the target is one of the commits that are kept.
fn with_near(keep: KeepRead, older: Vec<Commit>, last: Commit) -> Result<Option<Ledger>, NoMemory>
    requires parts { IsApart [] older.items last }
    requires stated { (keep.target ≢ 0) × (last.minutes ≢ 0) }
    requires fits { (last.number ≤ keep.count) × (keep.count ≤ MAX_ENTRIES) × (50 ≤ vec_capacity older) }
    ensures some { IfOk result (λ o. IfSome o (IsRestored (keep_read keep) ([] ++ (older.items ++ last ∷ [])))) }
    ensures none { IfOk result (λ o. IsNone o → (kept : Kept)
        → IsRestored (keep_read keep) ([] ++ (older.items ++ last ∷ [])) kept → ⊥) }
{
    let Some(target) = copy_of(&older, keep.target)? else {
        return Ok(None);
    };
    let run = run_to(&last, target);
    Ok(Some(ledger_of(keep, older, last, Some(run))))
}

/// The ledger of a checkpoint's commits, taken apart.
fn assembled(
    keep: KeepRead,
    far: Option<Commit>,
    older: Vec<Commit>,
    last: Commit,
) -> Result<Option<Ledger>, NoMemory>
    requires parts { IsApart (far_row far) older.items last }
    requires room { (keep.count ≤ MAX_ENTRIES + 1) × (keep.target ≢ 0 → keep.count ≤ MAX_ENTRIES) × (50 ≤ vec_capacity older) }
    ensures some { IfOk result (λ o. IfSome o (IsRestored (keep_read keep) (far_row far ++ (older.items ++ last ∷ [])))) }
    ensures none { IfOk result (λ o. IsNone o → (kept : Kept)
        → IsRestored (keep_read keep) (far_row far ++ (older.items ++ last ∷ [])) kept → ⊥) }
{
    if last.number > keep.count {
        return Ok(None);
    }
    if keep.target == 0 {
        return Ok(plain(keep, far, older, last));
    }
    if last.minutes == 0 {
        return Ok(None);
    }
    match far {
        Some(target) => Ok(with_far(keep, target, older, last)),
        None => with_near(keep, older, last),
    }
}

/// The ledger that a checkpoint's first record and its commits state together.
pub(crate) fn restored(keep: KeepRead, mut commits: Vec<Commit>) -> Result<Option<Ledger>, NoMemory>
    requires some { 1 ≤ length commits.items }
    requires few { length commits.items ≤ 51 }
    requires room { (keep.count ≤ MAX_ENTRIES + 1) × (keep.target ≢ 0 → keep.count ≤ MAX_ENTRIES) × (50 ≤ vec_capacity commits) }
    ensures some { IfOk result (λ o. IfSome o (IsRestored (keep_read keep) commits.items)) }
    ensures none { IfOk result (λ o. IsNone o → (kept : Kept) → IsRestored (keep_read keep) commits.items kept → ⊥) }
{
    if !are_in_time(&commits) {
        return Ok(None);
    }
    let far = take_far(&mut commits);
    if !is_ordered(&commits) {
        return Ok(None);
    }
    match commits.pop() {
        None => Ok(None),
        Some(last) => assembled(keep, far, commits, last),
    }
}

/// Room for a checkpoint's commits.
fn no_commits(alloc: Global) -> Result<Vec<Commit>, NoMemory>
    ensures { IfOk result (λ commits. (commits.items ≡ []) × (51 ≤ vec_capacity commits)) }
{
    Ok(Vec::with_capacity(alloc, MOST_COMMITS as usize)?)
}

/// The ledger of a Keep with the records of its commits. The Keep is at an offset.
fn of_keep<J: LedgerCheck>(
    alloc: Global,
    offset: u64,
    keep: KeepRead,
    records: &[Placed],
    judge: &J,
) -> Result<Ledger, LedgerFault>
    requires count { length records.now ≡ keep.commits }
    requires numbers { HasRightNumbers (keep_read keep) }
    ensures ok { IfOk result (IsReadKeep (J.accepted judge.now) (keep_read keep) records.now) }
    ensures bad { (at : ℕ) → IsErrOf result (LedgerFault.BadRecord at)
        → IsBadKeep (J.accepted judge.now) (keep_read keep) offset records.now at }
{
    let mut commits = no_commits(alloc)?;
    match read_commits(alloc, false, records, judge, &mut commits) {
        Err(fault) => Err(fault),
        Ok(()) => match restored(keep, commits)? {
            Some(ledger) => Ok(ledger),
            None => Err(LedgerFault::BadRecord { offset }),
        },
    }
}

/// The ledger of a checkpoint, whether a commit as it is written now is among its records, and the records after it.
pub(crate) fn restore<'a, J: LedgerCheck>(
    alloc: Global,
    placed: &Placed,
    behind: &'a [Placed],
    judge: &J,
) -> Result<(Ledger, bool, &'a [Placed]), LedgerFault>
    requires { placed.now.kind ≡ 3 }
    ensures ok { IfOk result (λ read. IsBegun (J.accepted judge.now) (placed.now ∷ behind.now) read.0 read.1 read.2.now) }
    ensures bad { (at : ℕ) → IsErrOf result (LedgerFault.BadRecord at)
        → IsBadCheckpoint (J.accepted judge.now) placed.now behind.now at }
{
    let bad = LedgerFault::BadRecord {
        offset: placed.offset,
    };
    let Some(keep) = read_keep(placed.payload.as_slice()) else {
        return Err(bad);
    };
    if !is_keep(keep, behind) {
        return Err(bad);
    }
    let (records, rest) = behind.split_at(keep.commits as usize);
    match of_keep(alloc, placed.offset, keep, records, judge) {
        Ok(ledger) => Ok((ledger, new_after(false, records), rest)),
        Err(fault) => Err(fault),
    }
}
