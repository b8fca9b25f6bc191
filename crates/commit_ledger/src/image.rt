//! What is kept, as the records with which a file of the journal begins anew.

ghost use Rattle.std.specs.Prelude.{◌≡◌, ◌≤◌, ◌++◌, ◌∷◌, [], map, length, IfOk, IfSome, IsNone};
ghost use Rattle.record_code.specs.Record.{most_payload};
ghost use Rattle.commit_ledger.specs.declared.entry.Entry.TheVariants.{Commit as CommitOf, Scheduled as ScheduledOf};
ghost use Rattle.commit_ledger.specs.declared.entry.Scheduled.{Scheduled};
ghost use Rattle.commit_ledger.specs.Checkpoint.{HasShortMaps, HaveShortTexts, checkpoint, commit_record, far_target, first_number, keep_bytes, keep_form, listed, stated, target_number, waiting_records};
ghost use Rattle.commit_ledger.specs.Form.{keep_read};
ghost use Rattle.commit_ledger.specs.Payload.{HasShortText};

use crate::entry::{Commit, Scheduled};
use crate::form::KeepRead;
use crate::kinds::{COMMIT, KEEP, SCHEDULED};
use crate::ledger::Ledger;
use crate::payload::{commit_payload, scheduled_payload};
use cfg_base::{Bytes, NoMemory};
use record_code::{Encoded, encode};
use std::alloc::Global;

/// The bytes of a checkpoint's first payload.
const KEEP_BYTES: usize = 20;

fn keep_payload(alloc: Global, keep: &KeepRead) -> Result<Bytes, NoMemory>
    ensures bytes { IfOk result (λ bytes. bytes ≡ keep_bytes (keep_read keep.now)) }
    ensures size { IfOk result (λ bytes. length bytes ≤ most_payload) }
{
    let mut bytes = Vec::with_capacity(alloc, KEEP_BYTES)?;
    bytes.extend_from_slice(&keep.count.to_be_bytes())?;
    bytes.extend_from_slice(&keep.target.to_be_bytes())?;
    bytes.extend_from_slice(&keep.commits.to_be_bytes())?;
    Ok(Bytes::from(bytes))
}

/// Puts the record of a commit after others.
fn with_commit(alloc: Global, image: Encoded, commit: &Commit) -> Result<Encoded, NoMemory>
    requires { HasShortText (CommitOf commit.now) }
    ensures { IfOk result (λ e. e ≡ image ++ commit_record commit.now ∷ []) }
{
    let payload = commit_payload(alloc, commit)?;
    image.with(COMMIT, &payload)
}

/// Puts the records of commits after others, one after another.
fn with_commits(alloc: Global, image: Encoded, commits: &[Commit]) -> Result<Encoded, NoMemory>
    requires { HaveShortTexts commits.now }
    ensures { IfOk result (λ e. e ≡ image ++ map commit_record commits.now) }
{
    match commits {
        [] => Ok(image),
        [first, rest @ ..] => match with_commit(alloc, image, first) {
            Ok(longer) => with_commits(alloc, longer, rest),
            Err(NoMemory) => Err(NoMemory),
        },
    }
}

/// Puts the record of a scheduled commit after others, where there is one.
fn with_waiting(
    alloc: Global,
    image: Encoded,
    scheduled: &Option<Scheduled>,
) -> Result<Encoded, NoMemory>
    requires { IfSome scheduled.now (λ (w : Scheduled). HasShortText (ScheduledOf w)) }
    ensures { IfOk result (λ e. e ≡ image ++ waiting_records scheduled.now) }
{
    match scheduled {
        None => Ok(image),
        Some(waiting) => {
            let payload = scheduled_payload(alloc, waiting)?;
            image.with(SCHEDULED, &payload)
        }
    }
}

impl Ledger {
    fn first_number(&self) -> u64
        ensures { result ≡ first_number self.now }
    {
        match self.older.as_slice() {
            [] => self.last.number,
            [first, ..] => first.number,
        }
    }

    /// What an unconfirmed run goes back to, where it is older than the commits that are kept.
    fn far_target(&self) -> Option<&Commit>
        ensures some { IfSome result (λ target. far_target (first_number self.now) self.now.pending ≡ target.now ∷ []) }
        ensures none { IsNone result → far_target (first_number self.now) self.now.pending ≡ [] }
    {
        match &self.pending {
            Some(run) if run.target.number < self.first_number() => Some(&run.target),
            _ => None,
        }
    }

    fn target_number(&self) -> u64
        ensures { result ≡ target_number self.now.pending }
    {
        match &self.pending {
            Some(run) => run.target.number,
            None => 0,
        }
    }

    /// How many entries there are but for a scheduled commit's.
    fn stated_count(&self) -> u64
        ensures { result ≡ (stated self.now).count }
    {
        match &self.scheduled {
            Some(_) => self.count.saturating_sub(1),
            None => self.count,
        }
    }

    /// What the first record of a checkpoint states.
    fn keep(&self) -> KeepRead
        ensures { keep_read result ≡ keep_form (stated self.now) }
    {
        let far = match self.far_target() {
            Some(_) => 1,
            None => 0,
        };
        KeepRead {
            count: self.stated_count(),
            target: self.target_number(),
            commits: far + self.older.len() as u32 + 1,
        }
    }

    /// Puts the record of that target after others.
    fn with_far_target(&self, alloc: Global, image: Encoded) -> Result<Encoded, NoMemory>
        requires { HaveShortTexts (listed self.now) }
        ensures { IfOk result (λ e. e ≡ image ++ map commit_record (far_target (first_number self.now) self.now.pending)) }
    {
        match self.far_target() {
            Some(target) => with_commit(alloc, image, target),
            None => Ok(image),
        }
    }

    /// What is kept as the records of a checkpoint. Each map is printed once, one after another.
    pub fn keep_image(&self, alloc: Global) -> Result<Encoded, NoMemory>
        requires { HasShortMaps self.now }
        ensures { IfOk result (λ image. image ≡ checkpoint self.now) }
    {
        let keep = keep_payload(alloc, &self.keep())?;
        let image = encode(alloc, KEEP, &keep)?;
        let image = self.with_far_target(alloc, image)?;
        let image = with_commits(alloc, image, &self.older)?;
        let image = with_commit(alloc, image, &self.last)?;
        with_waiting(alloc, image, &self.scheduled)
    }
}
