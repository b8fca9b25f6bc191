//! The entries that records are of.

ghost use Rattle.std.specs.Prelude.{◌≡◌, ◌<◌, ◌≤◌, ◌^◌, ◌↔◌, ◌∷◌, [], ℕ, List, length, IsTrue, IsNone, IfSome, IfOk};
ghost use Rattle.cfg_base.specs.Kind.{IsName};
ghost use Rattle.cfg_tree.specs.FirstProfile.{IsFirstProfile};
ghost use Rattle.cfg_tree.specs.Statements.{Statements};
ghost use Rattle.cfg_tree.specs.Tree.{IsTree};
ghost use Rattle.cfg_values.specs.Spelling.{IsText};
ghost use Rattle.record_code.specs.Listed.{record_of, records_of};
ghost use Rattle.commit_ledger.specs.declared.entry.Commit.{Commit};
ghost use Rattle.commit_ledger.specs.declared.entry.Confirm.{Confirm};
ghost use Rattle.commit_ledger.specs.declared.entry.Cleared.{Cleared};
ghost use Rattle.commit_ledger.specs.declared.entry.Scheduled.{Scheduled};
ghost use Rattle.commit_ledger.specs.declared.entry.Entry.{Entry};
ghost use Rattle.commit_ledger.specs.Form.{commit_read, confirm_read, scheduled_read, IsInRange, IsScheduledInRange, IsCommitFrom, IsCommitOf, IsConfirmFrom, IsConfirmOf, IsScheduledFrom, IsScheduledOf, IsClearedOf};
ghost use Rattle.commit_ledger.specs.Payload.{text_of, CommitFits, ConfirmFits, ScheduledFits};
ghost use Rattle.commit_ledger.specs.Rules.{IsRecordOf, new_after};
ghost use Rattle.commit_ledger.specs.declared.entry.Entry.TheVariants.{Commit as CommitOf};

use crate::entry::{Cleared, Commit, Confirm, Entry, Scheduled};
use crate::form::{CommitRead, ConfirmRead, ScheduledRead};
use crate::kinds::{CLEARED, COMMIT, CONFIRM, FORMER_COMMIT, SCHEDULED};
use crate::payload::{read_commit, read_confirm, read_scheduled, text_of};
use cfg_base::{Kind, MOMENT_MAX, Moment, NoMemory, UserName, Word};
use cfg_tree::{LedgerCheck, Tree};
use cfg_values::{ValueFault, read_value};
use curly_grammar::{TextFault, parse};
use record_code::Placed;
use std::alloc::Global;

/// The most bytes of a commit's text.
const MAX_TEXT: usize = 1_048_576;

/// The most minutes within which a commit must be confirmed.
const MAX_MINUTES: u32 = 65_535;

fn user_of(alloc: Global, bytes: &[u8]) -> Result<Option<UserName>, NoMemory>
    requires { length bytes.now < 2 ^ 8 }
    ensures some { IfOk result (λ o. IfSome o (λ user. (user ≡ bytes.now) × IsName bytes.now)) }
    ensures none { IfOk result (λ o. IsNone o → IsName bytes.now → ⊥) }
{
    let name = Word::short(alloc, bytes)?;
    Ok(UserName::of(name))
}

fn comment_of(alloc: Global, bytes: &[u8]) -> Result<Option<Word>, NoMemory>
    ensures some { IfOk result (λ o. IfSome o (λ comment. (comment ≡ bytes.now) × IsText bytes.now)) }
    ensures none { IfOk result (λ o. IsNone o → IsText bytes.now → ⊥) }
{
    match read_value(alloc, Kind::Text, bytes) {
        Ok(comment) => Ok(Some(comment)),
        Err(ValueFault::NoMemory) => Err(NoMemory),
        Err(ValueFault::NotOfKind(_)) => Ok(None),
    }
}

fn is_printed(alloc: Global, tree: &Tree, text: &[u8]) -> Result<bool, NoMemory>
    ensures { IfOk result (λ same. IsTrue same ↔ (text.now ≡ text_of tree.now)) }
{
    let own = text_of(alloc, tree)?;
    Ok(own.as_slice() == text)
}

/// The map whose whole text this is, if it is one's.
fn tree_of(alloc: Global, text: &[u8]) -> Result<Option<Tree>, NoMemory>
    ensures some { IfOk result (λ o. IfSome o (λ tree. IsTree tree × (text.now ≡ text_of tree))) }
    ensures only { IfOk result (λ o. IfSome o (λ tree. (m : Statements) → IsTree m → text.now ≡ text_of m → m ≡ tree)) }
    ensures none { IfOk result (λ o. IsNone o → (m : Statements) → IsTree m → text.now ≡ text_of m → ⊥) }
{
    match parse(alloc, text) {
        Ok(marked) => {
            let tree = marked.tree;
            let _ = tree.count();
            if is_printed(alloc, &tree, text)? {
                Ok(Some(tree))
            } else {
                Ok(None)
            }
        }
        Err(fault) => {
            if fault == TextFault::NoMemory {
                Err(NoMemory)
            } else {
                Ok(None)
            }
        }
    }
}

/// Whether the numbers of a commit's payload are in their ranges, and its text isn't too long.
fn is_in_range(read: &CommitRead<'_>) -> bool
    ensures { IsTrue result ↔ IsInRange (commit_read read.now) }
{
    read.number != 0
        && read.moment <= MOMENT_MAX
        && read.minutes <= MAX_MINUTES
        && read.text.len() <= MAX_TEXT
}

/// The commit of these fields, if they keep to their ranges.
fn commit_from<J: LedgerCheck>(
    alloc: Global,
    read: &CommitRead<'_>,
    judge: &J,
) -> Result<Option<Commit>, NoMemory>
    requires { CommitFits (commit_read read.now) }
    ensures some { IfOk result (λ o. IfSome o (IsCommitFrom (J.accepted judge.now) (commit_read read.now))) }
    ensures none { IfOk result (λ o. IsNone o
        → (c : Commit) → IsCommitFrom (J.accepted judge.now) (commit_read read.now) c → ⊥) }
{
    if !is_in_range(read) {
        return Ok(None);
    }
    let Some(user) = user_of(alloc, read.user)? else {
        return Ok(None);
    };
    let Some(comment) = comment_of(alloc, read.comment)? else {
        return Ok(None);
    };
    let Some(tree) = tree_of(alloc, read.text)? else {
        return Ok(None);
    };
    if !judge.accepts(&tree)? {
        return Ok(None);
    }
    Ok(Some(Commit {
        number: read.number,
        user,
        via: read.via,
        moment: Moment::of(read.moment),
        comment,
        tree,
        minutes: read.minutes,
    }))
}

/// The commit whose payload this is, if it is one's.
fn commit_of<J: LedgerCheck>(
    alloc: Global,
    payload: &[u8],
    judge: &J,
) -> Result<Option<Commit>, NoMemory>
    ensures some { IfOk result (λ o. IfSome o (IsCommitOf (J.accepted judge.now) payload.now)) }
    ensures none { IfOk result (λ o. IsNone o → (c : Commit) → IsCommitOf (J.accepted judge.now) payload.now c → ⊥) }
{
    match read_commit(payload) {
        None => Ok(None),
        Some(read) => commit_from(alloc, &read, judge),
    }
}

fn confirm_from(alloc: Global, read: &ConfirmRead<'_>) -> Result<Option<Confirm>, NoMemory>
    requires { ConfirmFits (confirm_read read.now) }
    ensures some { IfOk result (λ o. IfSome o (IsConfirmFrom (confirm_read read.now))) }
    ensures none { IfOk result (λ o. IsNone o → (c : Confirm) → IsConfirmFrom (confirm_read read.now) c → ⊥) }
{
    if read.number == 0 || read.moment > MOMENT_MAX {
        return Ok(None);
    }
    let Some(user) = user_of(alloc, read.user)? else {
        return Ok(None);
    };
    Ok(Some(Confirm {
        number: read.number,
        user,
        moment: Moment::of(read.moment),
    }))
}

/// The confirmation whose payload this is, if it is one's.
fn confirm_of(alloc: Global, payload: &[u8]) -> Result<Option<Confirm>, NoMemory>
    ensures some { IfOk result (λ o. IfSome o (IsConfirmOf payload.now)) }
    ensures none { IfOk result (λ o. IsNone o → (c : Confirm) → IsConfirmOf payload.now c → ⊥) }
{
    match read_confirm(payload) {
        None => Ok(None),
        Some(read) => confirm_from(alloc, &read),
    }
}

/// What calls a scheduled commit off, whose payload this is, if it is one's: it is written as a confirmation.
fn cleared_of(alloc: Global, payload: &[u8]) -> Result<Option<Cleared>, NoMemory>
    ensures some { IfOk result (λ o. IfSome o (IsClearedOf payload.now)) }
    ensures none { IfOk result (λ o. IsNone o → (c : Cleared) → IsClearedOf payload.now c → ⊥) }
{
    match confirm_of(alloc, payload)? {
        None => Ok(None),
        Some(confirm) => Ok(Some(Cleared {
            number: confirm.number,
            user: confirm.user,
            moment: confirm.moment,
        })),
    }
}

/// Whether the numbers of a scheduled commit's payload are in their ranges, and its text isn't too long.
fn is_scheduled_in_range(read: &ScheduledRead<'_>) -> bool
    ensures { IsTrue result ↔ IsScheduledInRange (scheduled_read read.now) }
{
    read.number != 0
        && read.moment <= MOMENT_MAX
        && read.at <= MOMENT_MAX
        && read.text.len() <= MAX_TEXT
}

/// The scheduled commit of these fields, if they keep to their ranges.
fn scheduled_from<J: LedgerCheck>(
    alloc: Global,
    read: &ScheduledRead<'_>,
    judge: &J,
) -> Result<Option<Scheduled>, NoMemory>
    requires { ScheduledFits (scheduled_read read.now) }
    ensures some { IfOk result (λ o. IfSome o (IsScheduledFrom (J.accepted judge.now) (scheduled_read read.now))) }
    ensures none { IfOk result (λ o. IsNone o
        → (w : Scheduled) → IsScheduledFrom (J.accepted judge.now) (scheduled_read read.now) w → ⊥) }
{
    if !is_scheduled_in_range(read) {
        return Ok(None);
    }
    let Some(user) = user_of(alloc, read.user)? else {
        return Ok(None);
    };
    let Some(comment) = comment_of(alloc, read.comment)? else {
        return Ok(None);
    };
    let Some(tree) = tree_of(alloc, read.text)? else {
        return Ok(None);
    };
    if !judge.accepts(&tree)? {
        return Ok(None);
    }
    Ok(Some(Scheduled {
        number: read.number,
        user,
        moment: Moment::of(read.moment),
        at: Moment::of(read.at),
        comment,
        tree,
    }))
}

/// The scheduled commit whose payload this is, if it is one's.
fn scheduled_of<J: LedgerCheck>(
    alloc: Global,
    payload: &[u8],
    judge: &J,
) -> Result<Option<Scheduled>, NoMemory>
    ensures some { IfOk result (λ o. IfSome o (IsScheduledOf (J.accepted judge.now) payload.now)) }
    ensures none { IfOk result (λ o. IsNone o
        → (w : Scheduled) → IsScheduledOf (J.accepted judge.now) payload.now w → ⊥) }
{
    match read_scheduled(payload) {
        None => Ok(None),
        Some(read) => scheduled_from(alloc, &read, judge),
    }
}

/// The commit of the first profile whose payload this is, if it is one's.
fn former_of<J: LedgerCheck>(
    alloc: Global,
    payload: &[u8],
    judge: &J,
) -> Result<Option<Commit>, NoMemory>
    ensures some { IfOk result (λ o. IfSome o (λ c. IsCommitOf (J.accepted judge.now) payload.now c × IsFirstProfile c.tree)) }
    ensures none { IfOk result (λ o. IsNone o
        → (c : Commit) → IsCommitOf (J.accepted judge.now) payload.now c → IsFirstProfile c.tree → ⊥) }
{
    let Some(commit) = commit_of(alloc, payload, judge)? else {
        return Ok(None);
    };
    if commit.tree.in_profile_1() {
        Ok(Some(commit))
    } else {
        Ok(None)
    }
}

/// The commit that a record is of, if it is one's. `new` says whether a commit as it is written now stands before it.
pub(crate) fn commit_in<J: LedgerCheck>(
    alloc: Global,
    new: bool,
    placed: &Placed,
    judge: &J,
) -> Result<Option<Commit>, NoMemory>
    ensures some { IfOk result (λ o. IfSome o (λ c. IsRecordOf (J.accepted judge.now) new (record_of placed.now) (CommitOf c))) }
    ensures none { IfOk result (λ o. IsNone o
        → (c : Commit) → IsRecordOf (J.accepted judge.now) new (record_of placed.now) (CommitOf c) → ⊥) }
{
    if placed.kind == COMMIT {
        return commit_of(alloc, placed.payload.as_slice(), judge);
    }
    if placed.kind == FORMER_COMMIT && !new {
        return former_of(alloc, placed.payload.as_slice(), judge);
    }
    Ok(None)
}

/// The entry that a record is of, if it is one's. `new` says whether a commit as it is written now stands before it.
pub(crate) fn entry_of<J: LedgerCheck>(
    alloc: Global,
    new: bool,
    placed: &Placed,
    judge: &J,
) -> Result<Option<Entry>, NoMemory>
    ensures some { IfOk result (λ o. IfSome o (IsRecordOf (J.accepted judge.now) new (record_of placed.now))) }
    ensures none { IfOk result (λ o. IsNone o
        → (e : Entry) → IsRecordOf (J.accepted judge.now) new (record_of placed.now) e → ⊥) }
{
    if placed.kind == CONFIRM {
        return Ok(confirm_of(alloc, placed.payload.as_slice())?.map(Entry::Confirm));
    }
    if placed.kind == SCHEDULED {
        return Ok(scheduled_of(alloc, placed.payload.as_slice(), judge)?.map(Entry::Scheduled));
    }
    if placed.kind == CLEARED {
        return Ok(cleared_of(alloc, placed.payload.as_slice())?.map(Entry::Cleared));
    }
    Ok(commit_in(alloc, new, placed, judge)?.map(Entry::Commit))
}

/// Whether a commit as it is written now has come, after one more record.
pub(crate) fn new_behind(new: bool, placed: &Placed) -> bool
    ensures { result ≡ new_after new (record_of placed.now ∷ []) }
{
    new || placed.kind == COMMIT
}

/// Whether a commit as it is written now has come, after these records too.
pub(crate) fn new_after(new: bool, records: &[Placed]) -> bool
    ensures { result ≡ new_after new (records_of records.now) }
{
    match records {
        [] => new,
        [first, rest @ ..] => new_after(new_behind(new, first), rest),
    }
}
