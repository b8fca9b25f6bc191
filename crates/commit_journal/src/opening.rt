ghost use Rattle.std.specs.Prelude.{◌≡◌, ◌≢◌, ◌+◌, ◌%◌, ◌^◌, ◌⊎◌, ◌↔◌, true, false, List, ℕ, IsTrue, IsOk, IfOk, IfErr, IsErrOf};
ghost use Rattle.disk_model.specs.Disk.{DiskView, contents_of};
ghost use Rattle.disk_model.specs.Pair.{BothTell, pair_of};
ghost use Rattle.commit_journal.specs.Attach.{ExplainsPair, ExplainsFile, IsHeaderOf};
ghost use Rattle.commit_journal.specs.Files.{AreListed, AreMarked, IsListedFile, IsReadFile, IsSyncedFile};
ghost use Rattle.commit_journal.specs.Journal.{PairCause};
ghost use Rattle.commit_journal.specs.Pair.{IsPair, b_counts, first_of, second_of};

use crate::header::{Header, read_header};
use crate::reading::{Listed, list_file};
use crate::settling::sync_file;
use crate::why::AttachWhy;
use disk_model::{Disk, DiskDone};
use std::alloc::Global;

/// Syncs both files, after which a crash leaves what a read gives.
pub(crate) fn sync_both<D: Disk>(a: &mut D, b: &mut D) -> DiskDone
    ensures a { IsSyncedFile (D.view a.old) (D.view a.new) (result ≡ DiskDone.Done) }
    ensures b { IsSyncedFile (D.view b.old) (D.view b.new) (result ≡ DiskDone.Done) }
    ensures cause { PairCause (D.view a.old).faults (D.view a.new).faults
        (D.view b.old).faults (D.view b.new).faults (result ≡ DiskDone.Failed) }
{
    if let DiskDone::Failed = sync_file(a) {
        return DiskDone::Failed;
    }
    sync_file(b)
}

fn is_pair(a: &Header, b: &Header) -> bool
    ensures of_files { (f g : List ℕ) → IsHeaderOf f a.now → IsHeaderOf g b.now → (IsTrue result ↔ IsPair f g) }
    ensures sound { IsTrue result → IsTrue a.now.is_sound × IsTrue b.now.is_sound }
{
    a.is_sound && b.is_sound && (a.is_open || b.is_open)
}

fn counts_b(a: &Header, b: &Header) -> bool
    ensures of_files { (f g : List ℕ) → IsHeaderOf f a.now → IsHeaderOf g b.now → result ≡ b_counts f g }
    ensures b_stale { result ≡ false → IsTrue b.now.is_open → b.now.generation ≢ (a.now.generation + 1) % 2 ^ 64 }
    ensures a_stale { result ≡ true → IsTrue a.now.is_open → a.now.generation ≢ (b.now.generation + 1) % 2 ^ 64 }
{
    if a.is_open {
        b.is_open && b.generation == a.generation.wrapping_add(1)
    } else {
        true
    }
}

/// Whether B counts, and the generation of the file that does.
#[derive(Clone, Copy, Debug, PartialEq, Eq)]
pub(crate) struct Choice {
    pub(crate) b_counts: bool,
    pub(crate) generation: u64,
}

fn choice_of(a: &Header, b: &Header) -> Choice
    ensures of_files { (f g : List ℕ) → IsHeaderOf f a.now → IsHeaderOf g b.now → result.b_counts ≡ b_counts f g }
    ensures marked { IsTrue a.now.is_sound → IsTrue b.now.is_sound → (x y : DiskView)
        → (IsTrue x.tells → IsHeaderOf (contents_of x.history) a.now)
        → (IsTrue y.tells → IsHeaderOf (contents_of y.history) b.now)
        → AreMarked (first_of result.b_counts x y) (second_of result.b_counts x y) result.generation }
{
    if counts_b(a, b) {
        Choice {
            b_counts: true,
            generation: b.generation,
        }
    } else {
        Choice {
            b_counts: false,
            generation: a.generation,
        }
    }
}

/// Which file counts, where these are a journal's files.
pub(crate) fn choose<D: Disk>(a: &mut D, b: &mut D) -> Result<Choice, AttachWhy>
    ensures a { IsReadFile (D.view a.old) (D.view a.new) }
    ensures b { IsReadFile (D.view b.old) (D.view b.new) }
    ensures ok { IsTrue (D.view a.old).tells → IsTrue (D.view b.old).tells → IfOk result (λ choice.
        IsPair (contents_of (D.view a.old).history) (contents_of (D.view b.old).history)
        × (choice.b_counts ≡ b_counts (contents_of (D.view a.old).history) (contents_of (D.view b.old).history))) }
    ensures marked { IfOk result (λ choice. AreMarked (first_of choice.b_counts (D.view a.old) (D.view b.old))
        (second_of choice.b_counts (D.view a.old) (D.view b.old)) choice.generation) }
    ensures no { IsTrue (D.view a.old).tells → IsTrue (D.view b.old).tells
        → IsErrOf result AttachWhy.NotAJournal
        → IsPair (contents_of (D.view a.old).history) (contents_of (D.view b.old).history) → ⊥ }
    ensures why { IfErr result (λ why. (why ≡ AttachWhy.NotAJournal) ⊎ (why ≡ AttachWhy.DiskFault)) }
    ensures cause { PairCause (D.view a.old).faults (D.view a.new).faults
        (D.view b.old).faults (D.view b.new).faults (IsErrOf result AttachWhy.DiskFault) }
{
    match (read_header(a), read_header(b)) {
        (Some(first), Some(second)) if is_pair(&first, &second) => Ok(choice_of(&first, &second)),
        (Some(_), Some(_)) => Err(AttachWhy::NotAJournal),
        _ => Err(AttachWhy::DiskFault),
    }
}

/// The records of the file that counts.
#[derive(Drop)]
pub(crate) struct Opened {
    pub(crate) b_counts: bool,
    pub(crate) generation: u64,
    pub(crate) listed: Listed,
}

fn list_counting<D: Disk>(
    alloc: Global,
    a: &mut D,
    b: &mut D,
    choice: bool,
) -> Result<Listed, AttachWhy>
    ensures a { IsReadFile (D.view a.old) (D.view a.new) }
    ensures b { IsReadFile (D.view b.old) (D.view b.new) }
    ensures ok { IfOk result (λ listed.
        IsListedFile (first_of choice (D.view a.old) (D.view b.old)) listed.payloads listed.gate) }
    ensures err { IsTrue (first_of choice (D.view a.old) (D.view b.old)).tells → IfErr result (λ why.
        ExplainsFile (contents_of (first_of choice (D.view a.old) (D.view b.old)).history) why) }
    ensures cause { PairCause (D.view a.old).faults (D.view a.new).faults
        (D.view b.old).faults (D.view b.new).faults (IsErrOf result AttachWhy.DiskFault) }
{
    if choice {
        list_file(alloc, b)
    } else {
        list_file(alloc, a)
    }
}

/// Syncs both files, chooses the one that counts, and reads its records.
pub(crate) fn open_files<D: Disk>(alloc: Global, a: &mut D, b: &mut D) -> Result<Opened, AttachWhy>
    ensures a { IsSyncedFile (D.view a.old) (D.view a.new) (IsOk result) }
    ensures b { IsSyncedFile (D.view b.old) (D.view b.new) (IsOk result) }
    ensures ok { IfOk result (λ opened.
        AreListed (pair_of D.view a.new b.new) opened.b_counts opened.listed.payloads opened.listed.gate) }
    ensures marked { IfOk result (λ opened. AreMarked (first_of opened.b_counts (D.view a.new) (D.view b.new))
        (second_of opened.b_counts (D.view a.new) (D.view b.new)) opened.generation) }
    ensures err { BothTell (pair_of D.view a.old b.old) → IfErr result (λ why.
        ExplainsPair (contents_of (D.view a.new).history) (contents_of (D.view b.new).history) why) }
    ensures cause { PairCause (D.view a.old).faults (D.view a.new).faults
        (D.view b.old).faults (D.view b.new).faults (IsErrOf result AttachWhy.DiskFault) }
{
    if let DiskDone::Failed = sync_both(a, b) {
        return Err(AttachWhy::DiskFault);
    }
    let Choice {
        b_counts,
        generation,
    } = match choose(a, b) {
        Ok(choice) => choice,
        Err(why) => return Err(why),
    };
    match list_counting(alloc, a, b, b_counts) {
        Ok(listed) => Ok(Opened {
            b_counts,
            generation,
            listed,
        }),
        Err(why) => Err(why),
    }
}
