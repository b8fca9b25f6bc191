//! The payloads of entries, written and taken apart.

ghost use Rattle.std.specs.Prelude.{◌≡◌, ◌≢◌, ◌<◌, ◌≤◌, ◌^◌, length, IfOk, IfSome, IsNone};
ghost use Rattle.record_code.specs.Record.{most_payload};
ghost use Rattle.commit_ledger.specs.Form.{commit_read, confirm_read, scheduled_read};
ghost use Rattle.commit_ledger.specs.Payload.{text_of, CommitForm, ConfirmForm, ScheduledForm, form_of, scheduled_form, commit_bytes, confirm_bytes, scheduled_bytes, CommitFits, ConfirmFits, ScheduledFits, kind_of, payload_bytes, via_byte, most_text, HasShortText};

use crate::entry::{Commit, Entry, Scheduled, Via};
use crate::fields::{take_short, take_u32, take_u64, take_via, whole_text};
use crate::form::{CommitRead, ConfirmRead, ScheduledRead};
use crate::kinds::{CLEARED, COMMIT, CONFIRM, SCHEDULED};
use cfg_base::{Bytes, Moment, NoMemory, Path, UserName};
use cfg_tree::Tree;
use curly_print::print;
use std::alloc::Global;

/// The bytes of a commit's payload beside its user, comment and text.
const COMMIT_BYTES: usize = 27;

/// The bytes of a confirmation's payload beside its user.
const CONFIRM_BYTES: usize = 17;

/// The bytes of a scheduled commit's payload beside its user, comment and text.
const SCHEDULED_BYTES: usize = 30;

fn byte_of(via: Via) -> u8
    ensures { result ≡ via_byte via }
{
    match via {
        Via::Cli => 0,
        Via::Other => 1,
    }
}

fn with_text(alloc: Global, commit: &Commit, text: &[u8]) -> Result<Bytes, NoMemory>
    requires short { length text.now ≤ most_text }
    requires own { text.now ≡ text_of commit.now.tree }
    ensures bytes { IfOk result (λ bytes. bytes ≡ commit_bytes (form_of commit.now)) }
    ensures size { IfOk result (λ bytes. length bytes ≤ most_payload) }
{
    let user = commit.user.as_word().as_bytes();
    let comment = commit.comment.as_bytes();
    let room = COMMIT_BYTES + user.len() + comment.len() + text.len();
    let mut bytes = Vec::with_capacity(alloc, room)?;
    bytes.extend_from_slice(&commit.number.to_be_bytes())?;
    bytes.extend_from_slice(&commit.moment.seconds().to_be_bytes())?;
    bytes.push(byte_of(commit.via))?;
    bytes.extend_from_slice(&commit.minutes.to_be_bytes())?;
    bytes.push(user.len() as u8)?;
    bytes.extend_from_slice(user)?;
    bytes.push(comment.len() as u8)?;
    bytes.extend_from_slice(comment)?;
    bytes.extend_from_slice(&(text.len() as u32).to_be_bytes())?;
    bytes.extend_from_slice(text)?;
    Ok(Bytes::from(bytes))
}

/// The whole text of a map.
#[tactic(auto, unfolding(crate::specs::Payload::text_of))]
pub(crate) fn text_of(alloc: Global, tree: &Tree) -> Result<Bytes, NoMemory>
    ensures { IfOk result (λ text. text ≡ text_of tree.now) }
{
    print(alloc, tree, &Path::top(alloc))
}

/// The payload of a commit's record.
pub(crate) fn commit_payload(alloc: Global, commit: &Commit) -> Result<Bytes, NoMemory>
    requires { length (text_of commit.now.tree) ≤ most_text }
    ensures bytes { IfOk result (λ bytes. bytes ≡ commit_bytes (form_of commit.now)) }
    ensures size { IfOk result (λ bytes. length bytes ≤ most_payload) }
{
    let text = text_of(alloc, &commit.tree)?;
    with_text(alloc, commit, text.as_slice())
}

/// The payload of a confirmation, or of what calls a scheduled commit off.
fn confirm_payload(
    alloc: Global,
    number: u64,
    moment: Moment,
    user: &UserName,
) -> Result<Bytes, NoMemory>
    ensures bytes { IfOk result (λ bytes.
        bytes ≡ confirm_bytes (record { number = number; moment = moment; user = user.now })) }
    ensures size { IfOk result (λ bytes. length bytes ≤ most_payload) }
{
    let user = user.as_word().as_bytes();
    let mut bytes = Vec::with_capacity(alloc, CONFIRM_BYTES + user.len())?;
    bytes.extend_from_slice(&number.to_be_bytes())?;
    bytes.extend_from_slice(&moment.seconds().to_be_bytes())?;
    bytes.push(user.len() as u8)?;
    bytes.extend_from_slice(user)?;
    Ok(Bytes::from(bytes))
}

fn waiting_with_text(alloc: Global, waiting: &Scheduled, text: &[u8]) -> Result<Bytes, NoMemory>
    requires short { length text.now ≤ most_text }
    requires own { text.now ≡ text_of waiting.now.tree }
    ensures bytes { IfOk result (λ bytes. bytes ≡ scheduled_bytes (scheduled_form waiting.now)) }
    ensures size { IfOk result (λ bytes. length bytes ≤ most_payload) }
{
    let user = waiting.user.as_word().as_bytes();
    let comment = waiting.comment.as_bytes();
    let room = SCHEDULED_BYTES + user.len() + comment.len() + text.len();
    let mut bytes = Vec::with_capacity(alloc, room)?;
    bytes.extend_from_slice(&waiting.number.to_be_bytes())?;
    bytes.extend_from_slice(&waiting.moment.seconds().to_be_bytes())?;
    bytes.extend_from_slice(&waiting.at.seconds().to_be_bytes())?;
    bytes.push(user.len() as u8)?;
    bytes.extend_from_slice(user)?;
    bytes.push(comment.len() as u8)?;
    bytes.extend_from_slice(comment)?;
    bytes.extend_from_slice(&(text.len() as u32).to_be_bytes())?;
    bytes.extend_from_slice(text)?;
    Ok(Bytes::from(bytes))
}

/// The payload of a scheduled commit's record.
pub(crate) fn scheduled_payload(alloc: Global, waiting: &Scheduled) -> Result<Bytes, NoMemory>
    requires { length (text_of waiting.now.tree) ≤ most_text }
    ensures bytes { IfOk result (λ bytes. bytes ≡ scheduled_bytes (scheduled_form waiting.now)) }
    ensures size { IfOk result (λ bytes. length bytes ≤ most_payload) }
{
    let text = text_of(alloc, &waiting.tree)?;
    waiting_with_text(alloc, waiting, text.as_slice())
}

impl Entry {
    /// The kind of its record.
    pub fn kind(&self) -> u8
        ensures { result ≡ kind_of self.now }
    {
        match self {
            Entry::Commit(_) => COMMIT,
            Entry::Confirm(_) => CONFIRM,
            Entry::Scheduled(_) => SCHEDULED,
            Entry::Cleared(_) => CLEARED,
        }
    }
}

/// The payload of an entry's record. A map's text is written whole.
pub fn payload_of(alloc: Global, entry: &Entry) -> Result<Bytes, NoMemory>
    requires { HasShortText entry.now }
    ensures bytes { IfOk result (λ bytes. bytes ≡ payload_bytes entry.now) }
    ensures size { IfOk result (λ bytes. length bytes ≤ most_payload) }
{
    match entry {
        Entry::Commit(commit) => commit_payload(alloc, commit),
        Entry::Confirm(c) => confirm_payload(alloc, c.number, c.moment, &c.user),
        Entry::Scheduled(waiting) => scheduled_payload(alloc, waiting),
        Entry::Cleared(c) => confirm_payload(alloc, c.number, c.moment, &c.user),
    }
}

/// The fields of a commit's payload.
pub(crate) fn read_commit(bytes: &[u8]) -> Option<CommitRead<'_>>
    ensures some { IfSome result (λ read. bytes.now ≡ commit_bytes (commit_read read)) }
    ensures fits { IfSome result (λ read. CommitFits (commit_read read)) }
    ensures none { IsNone result → (f : CommitForm) → CommitFits f → bytes.now ≢ commit_bytes f }
{
    let (number, rest) = take_u64(bytes)?;
    let (moment, rest) = take_u64(rest)?;
    let (via, rest) = take_via(rest)?;
    let (minutes, rest) = take_u32(rest)?;
    let (user, rest) = take_short(rest)?;
    let (comment, rest) = take_short(rest)?;
    let text = whole_text(rest)?;
    Some(CommitRead {
        number,
        moment,
        via,
        minutes,
        user,
        comment,
        text,
    })
}

/// The fields of a scheduled commit's payload.
pub(crate) fn read_scheduled(bytes: &[u8]) -> Option<ScheduledRead<'_>>
    ensures some { IfSome result (λ read. bytes.now ≡ scheduled_bytes (scheduled_read read)) }
    ensures fits { IfSome result (λ read. ScheduledFits (scheduled_read read)) }
    ensures none { IsNone result → (f : ScheduledForm) → ScheduledFits f → bytes.now ≢ scheduled_bytes f }
{
    let (number, rest) = take_u64(bytes)?;
    let (moment, rest) = take_u64(rest)?;
    let (at, rest) = take_u64(rest)?;
    let (user, rest) = take_short(rest)?;
    let (comment, rest) = take_short(rest)?;
    let text = whole_text(rest)?;
    Some(ScheduledRead {
        number,
        moment,
        at,
        user,
        comment,
        text,
    })
}

/// The fields of a confirmation's payload, or of what calls a scheduled commit off.
pub(crate) fn read_confirm(bytes: &[u8]) -> Option<ConfirmRead<'_>>
    ensures some { IfSome result (λ read. bytes.now ≡ confirm_bytes (confirm_read read)) }
    ensures fits { IfSome result (λ read. ConfirmFits (confirm_read read)) }
    ensures none { IsNone result → (f : ConfirmForm) → ConfirmFits f → bytes.now ≢ confirm_bytes f }
{
    let (number, rest) = take_u64(bytes)?;
    let (moment, rest) = take_u64(rest)?;
    let (user, rest) = take_short(rest)?;
    if rest.is_empty() {
        Some(ConfirmRead {
            number,
            moment,
            user,
        })
    } else {
        None
    }
}
