ghost use Rattle.std.specs.Prelude.{◌≡◌, ◌≤◌, ◌<◌, ◌+◌, ◌^◌, ◌++◌, ◌∷◌, [], ◌⊎◌, ◌↔◌, true, OnOk, List, ℕ, length, IsTrue, IsOk, IfOk, IfErr, IfSome, IsNone, IsErrOf};
ghost use Rattle.disk_model.specs.Disk.{contents_of, HasCause, Write, Sync, DiskGoesOn};
ghost use Rattle.commit_journal.specs.Attach.{IsThere, IsHeaderOf};
ghost use Rattle.commit_journal.specs.Files.{IsReadFile, IsWrittenFile};
ghost use Rattle.commit_journal.specs.Journal.{PairCause};
ghost use Rattle.commit_journal.specs.Opening.{IsOpened, IsCreated, IsNotCreated, making, making_b};
ghost use Rattle.commit_journal.specs.Pair.{head_a, head_b};

use crate::appending::OPEN;
use crate::flight::Flight;
use crate::header::{FILE_GATE, Header, read_header};
use crate::journal::Journal;
use crate::why::{CreateFault, CreateWhy};
use disk_model::{Disk, DiskDone};
use record_code::Encoded;
use std::alloc::{AllocError, Global};

/// Writes a piece, and syncs.
pub(crate) fn write_and_sync<D: Disk>(disk: &mut D, at: u64, piece: &[u8]) -> DiskDone
    requires { IsTrue (D.view disk.old).tells → at ≤ length (contents_of (D.view disk.old).history) }
    ensures file { IsWrittenFile (D.view disk.old) (D.view disk.new) (Write at piece.now ∷ (Sync true ∷ []))
        (result ≡ DiskDone.Done) }
    ensures bound { result ≡ DiskDone.Done → at + length piece.now ≤ 2 ^ 62 }
    ensures cause { HasCause (D.view disk.old).faults (D.view disk.new).faults (result ≡ DiskDone.Failed) }
{
    if let DiskDone::Failed = disk.write_at(at, piece) {
        return DiskDone::Failed;
    }
    disk.sync()
}

fn is_there(a: &Header, b: &Header) -> bool
    ensures { (f g : List ℕ) → IsHeaderOf f a.now → IsHeaderOf g b.now → (IsTrue result ↔ IsThere f g) }
{
    a.begins && b.begins && (a.is_open || b.is_open)
}

/// Whether a journal is there already.
pub(crate) fn find_journal<D: Disk>(a: &mut D, b: &mut D) -> Option<bool>
    ensures a { IsReadFile (D.view a.old) (D.view a.new) }
    ensures b { IsReadFile (D.view b.old) (D.view b.new) }
    ensures there { IsTrue (D.view a.old).tells → IsTrue (D.view b.old).tells → IfSome result (λ is_there.
        IsTrue is_there ↔ IsThere (contents_of (D.view a.old).history) (contents_of (D.view b.old).history)) }
    ensures cause { PairCause (D.view a.old).faults (D.view a.new).faults
        (D.view b.old).faults (D.view b.new).faults (IsNone result) }
{
    match (read_header(a), read_header(b)) {
        (Some(first), Some(second)) => Some(is_there(&first, &second)),
        _ => None,
    }
}

// What the files begin with: magic, generation and file gate.
const HEADER_A: [u8; 17] = *b"CONFDJ1\n\0\0\0\0\0\0\0\x01\0";

const HEADER_B: [u8; 17] = *b"CONFDJ1\n\0\0\0\0\0\0\0\0\0";

fn image_of(alloc: Global, entry: &[u8]) -> Result<Vec<u8>, AllocError>
    requires { length entry.now < 2 ^ 62 }
    ensures { IfOk result (λ image. image.items ≡ head_a ++ entry.now) }
{
    let mut image = Vec::with_capacity(alloc, HEADER_A.len() + entry.len())?;
    image.extend_from_slice(&HEADER_A)?;
    image.extend_from_slice(entry)?;
    Ok(image)
}

fn write_files<D: Disk>(a: &mut D, b: &mut D, image: &[u8]) -> DiskDone
    requires { 17 ≤ length image.now }
    ensures a { IsWrittenFile (D.view a.old) (D.view a.new) (making image.now) (result ≡ DiskDone.Done) }
    ensures b { IsWrittenFile (D.view b.old) (D.view b.new) making_b (result ≡ DiskDone.Done) }
    ensures b_first { IsTrue (D.view b.old).tells → ((D.view a.new).history ≡ (D.view a.old).history)
        ⊎ DiskGoesOn (D.view b.old).history making_b (D.view b.new).history }
    ensures bound { result ≡ DiskDone.Done → length image.now ≤ 2 ^ 62 }
    ensures cause { PairCause (D.view a.old).faults (D.view a.new).faults
        (D.view b.old).faults (D.view b.new).faults (result ≡ DiskDone.Failed) }
{
    if let DiskDone::Failed = write_and_sync(b, 0, &HEADER_B) {
        return DiskDone::Failed;
    }
    if let DiskDone::Failed = write_and_sync(a, 0, image) {
        return DiskDone::Failed;
    }
    write_and_sync(a, FILE_GATE, &[OPEN])
}

/// Makes the files of a journal with one record, unless one is there.
pub(crate) fn make_files<D: Disk>(
    alloc: Global,
    a: &mut D,
    b: &mut D,
    entry: &[u8],
) -> Result<(), CreateWhy>
    requires { length entry.now < 2 ^ 62 }
    ensures a { IsWrittenFile (D.view a.old) (D.view a.new) (making (head_a ++ entry.now)) (IsOk result) }
    ensures b { IsWrittenFile (D.view b.old) (D.view b.new) making_b (IsOk result) }
    ensures b_first { IsTrue (D.view b.old).tells → ((D.view a.new).history ≡ (D.view a.old).history)
        ⊎ DiskGoesOn (D.view b.old).history making_b (D.view b.new).history }
    ensures bound { OnOk result (16 + length entry.now < 2 ^ 62) }
    ensures free { IsTrue (D.view a.old).tells → IsTrue (D.view b.old).tells → OnOk result
        (IsThere (contents_of (D.view a.old).history) (contents_of (D.view b.old).history) → ⊥) }
    ensures exists { IsTrue (D.view a.old).tells → IsTrue (D.view b.old).tells
        → IsErrOf result CreateWhy.Exists
        → IsThere (contents_of (D.view a.old).history) (contents_of (D.view b.old).history) }
    ensures unchanged { IsErrOf result CreateWhy.Exists ⊎ IsErrOf result CreateWhy.NoMemory
        → ((D.view a.new).history ≡ (D.view a.old).history) × ((D.view b.new).history ≡ (D.view b.old).history) }
    ensures spared { IsTrue (D.view a.old).tells → IsTrue (D.view b.old).tells
        → IsThere (contents_of (D.view a.old).history) (contents_of (D.view b.old).history)
        → ((D.view a.new).history ≡ (D.view a.old).history) × ((D.view b.new).history ≡ (D.view b.old).history) }
    ensures cause { PairCause (D.view a.old).faults (D.view a.new).faults
        (D.view b.old).faults (D.view b.new).faults (IsErrOf result CreateWhy.DiskFault) }
{
    match find_journal(a, b) {
        Some(false) => {}
        Some(true) => return Err(CreateWhy::Exists),
        None => return Err(CreateWhy::DiskFault),
    }
    let image = match image_of(alloc, entry) {
        Ok(image) => image,
        Err(_) => return Err(CreateWhy::NoMemory),
    };
    match write_files(a, b, &image) {
        DiskDone::Done => Ok(()),
        DiskDone::Failed => Err(CreateWhy::DiskFault),
    }
}

impl<D: Disk> Journal<D> {
    /// Makes a journal of one record in two files, unless one is there.
    pub fn create(
        alloc: Global,
        a: D,
        b: D,
        first: &Encoded,
        limit: u64,
    ) -> Result<Journal<D>, CreateFault<D>>
        requires { length first.now ≡ 1 }
        ensures ok { IfOk result (λ journal. IsOpened (D.view a) (D.view b) limit journal) }
        ensures made { IfOk result (λ journal. IsCreated (D.view a) (D.view b) first.now journal) }
        ensures err { IfErr result (λ fault.
            IsNotCreated (D.view a) (D.view b) first.now fault.why (D.view fault.a) (D.view fault.b)) }
    {
        let mut a = a;
        let mut b = b;
        let entry = first.with_gate();
        match make_files(alloc, &mut a, &mut b, entry) {
            Ok(()) => Ok(Journal {
                counting: a,
                other: b,
                b_counts: false,
                gate: FILE_GATE + entry.len() as u64,
                generation: 1,
                flight: Flight::Nothing,
                limit,
                counting_calls: 0,
                other_calls: 0,
            }),
            Err(why) => Err(CreateFault { why, a, b }),
        }
    }
}
