ghost use Rattle.std.specs.Prelude.{◌≡◌, ◌≤◌, ◌<◌, ◌+◌, ◌-◌, ◌^◌, ◌++◌, take, drop, ℕ, List, length, IsTrue, IfOk, IfErr, IfSome, IsNone, IsErrOf, vec_len};
ghost use Rattle.std.specs.Int.{w32, from_be_bytes};
ghost use Rattle.sha2.specs.Sha256.{sha256};
ghost use Rattle.disk_model.specs.Disk.{contents_of, HasCause};
ghost use Rattle.record_code.specs.Reading.{byte, slice, size_at, next_gate, IsRecordAt, Spells};
ghost use Rattle.commit_journal.specs.Attach.{ExplainsRecord, ExplainsFile};
ghost use Rattle.commit_journal.specs.Files.{IsListedFile, IsReadFile};
ghost use Rattle.record_code.specs.Listed.{record_of, records_of, PlacedFrom};

use crate::header::FIRST_GATE;
use crate::settling::{fill, read_gate};
use crate::why::AttachWhy;
use cfg_base::Bytes;
use disk_model::{Disk, DiskDone, DiskLen};
use record_code::{MAX_PAYLOAD, Payloads, Placed};
use sha2::{Digest, Sha256};
use std::alloc::Global;

/// The records of a file, and the place of its first closed gate.
#[derive(Drop)]
pub(crate) struct Listed {
    pub(crate) payloads: Payloads,
    pub(crate) gate: u64,
}

// The kind and the length of the record after a gate.
fn read_head<D: Disk>(disk: &mut D, gate: u64) -> Option<[u8; 5]>
    requires { gate < 2 ^ 62 }
    ensures tells { (D.view disk.new).tells ≡ (D.view disk.old).tells }
    ensures history { (D.view disk.new).history ≡ (D.view disk.old).history }
    ensures head { IsTrue (D.view disk.old).tells → IfSome result (λ head.
        head ≡ slice (contents_of (D.view disk.old).history) (gate + 1) 5) }
    ensures cause { HasCause (D.view disk.old).faults (D.view disk.new).faults (IsNone result) }
{
    let mut head = [0u8; 5];
    match fill(disk, gate + 1, &mut head) {
        DiskDone::Done => Some(head),
        DiskDone::Failed => None,
    }
}

fn length_in(head: &[u8; 5]) -> u32
    ensures { result ≡ from_be_bytes w32 (take 4 (drop 1 head.now)) }
{
    let [_, a, b, c, d] = *head;
    u32::from_be_bytes([a, b, c, d])
}

// The length of the payload after this head; one above the limit is read as none.
fn size_in(head: &[u8; 5]) -> usize
    ensures bound { result ≤ 1049600 }
    ensures size { (file : List ℕ) (gate : ℕ) → head.now ≡ slice file (gate + 1) 5
        → result ≡ size_at file gate }
{
    let size = length_in(head) as usize;
    if size <= MAX_PAYLOAD { size } else { 0 }
}

fn read_bytes<D: Disk>(
    alloc: Global,
    disk: &mut D,
    at: u64,
    count: usize,
) -> Result<Vec<u8>, AttachWhy>
    ensures tells { (D.view disk.new).tells ≡ (D.view disk.old).tells }
    ensures history { (D.view disk.new).history ≡ (D.view disk.old).history }
    ensures len { IfOk result (λ bytes. vec_len bytes ≡ count) }
    ensures bytes { IsTrue (D.view disk.old).tells → IfOk result (λ bytes.
        bytes.items ≡ slice (contents_of (D.view disk.old).history) at count) }
    ensures err { (file : List ℕ) (g : ℕ) → IfErr result (λ why. ExplainsRecord file g why) }
    ensures cause { HasCause (D.view disk.old).faults (D.view disk.new).faults
        (IsErrOf result AttachWhy.DiskFault) }
{
    let mut bytes = vec![in alloc; 0u8; count]?;
    match fill(disk, at, &mut bytes) {
        DiskDone::Done => Ok(bytes),
        DiskDone::Failed => Err(AttachWhy::DiskFault),
    }
}

// The digest of a record's head and its payload.
fn digest_of_parts(head: &[u8], payload: &[u8]) -> [u8; 32]
    ensures { result ≡ sha256 (head.now ++ payload.now) }
{
    let mut hasher = Sha256::new();
    hasher.update(head);
    hasher.update(payload);
    hasher.finalize()
}

// The record with this head, of the bytes after it: its payload, which is moved on, and its digest.
fn record_from(gate: u64, head: &[u8; 5], rest: Vec<u8>) -> Result<Placed, AttachWhy>
    requires { 32 ≤ vec_len rest }
    ensures ok { (file : List ℕ) → head.now ≡ slice file (gate + 1) 5
        → rest.items ≡ slice file (gate + 6) (size_at file gate + 32)
        → byte file gate ≡ 1 → IfOk result (λ placed. IsRecordAt file gate (record_of placed)) }
    ensures offset { IfOk result (λ placed. placed.offset ≡ gate) }
    ensures size { IfOk result (λ placed. length placed.payload + 32 ≡ vec_len rest) }
    ensures err { (file : List ℕ) → head.now ≡ slice file (gate + 1) 5
        → rest.items ≡ slice file (gate + 6) (size_at file gate + 32)
        → byte file gate ≡ 1 → IfErr result (λ why. ExplainsRecord file gate why) }
    ensures calm { IsErrOf result AttachWhy.DiskFault → ⊥ }
{
    let size = rest.len() - 32;
    let (payload, stored) = rest.split_at(size);
    let computed = digest_of_parts(head, payload);
    let mut kept = [0u8; 32];
    kept.copy_from_slice(stored);
    if kept != computed {
        return Err(AttachWhy::Damaged {
            offset: gate,
            kept,
            computed,
        });
    }
    let mut payload = rest;
    payload.truncate(size);
    Ok(Placed {
        offset: gate,
        kind: head[0],
        payload: Bytes::from(payload),
    })
}

// The record after an open gate, and the place of the gate after it.
fn read_record<D: Disk>(alloc: Global, disk: &mut D, gate: u64) -> Result<(Placed, u64), AttachWhy>
    requires { gate < 2 ^ 62 }
    ensures tells { (D.view disk.new).tells ≡ (D.view disk.old).tells }
    ensures history { (D.view disk.new).history ≡ (D.view disk.old).history }
    ensures later { IfOk result (λ read. gate < read.1) }
    ensures bound { IfOk result (λ read. read.1 < 2 ^ 63) }
    ensures offset { IfOk result (λ read. read.0.offset ≡ gate) }
    ensures behind { IfOk result (λ read. read.1 ≡ gate + 38 + length read.0.payload) }
    ensures ok { IsTrue (D.view disk.old).tells
        → byte (contents_of (D.view disk.old).history) gate ≡ 1
        → IfOk result (λ read. IsRecordAt (contents_of (D.view disk.old).history) gate (record_of read.0)) }
    ensures next { IsTrue (D.view disk.old).tells
        → IfOk result (λ read. read.1 ≡ next_gate (contents_of (D.view disk.old).history) gate) }
    ensures err { IsTrue (D.view disk.old).tells
        → byte (contents_of (D.view disk.old).history) gate ≡ 1
        → IfErr result (λ why. ExplainsRecord (contents_of (D.view disk.old).history) gate why) }
    ensures cause { HasCause (D.view disk.old).faults (D.view disk.new).faults
        (IsErrOf result AttachWhy.DiskFault) }
{
    let head = match read_head(disk, gate) {
        Some(head) => head,
        None => return Err(AttachWhy::DiskFault),
    };
    let size = size_in(&head);
    let rest = match read_bytes(alloc, disk, gate + 6, size + 32) {
        Ok(rest) => rest,
        Err(why) => return Err(why),
    };
    let placed = record_from(gate, &head, rest)?;
    Ok((placed, gate + 38 + size as u64))
}

// The records up to the first closed gate.
fn read_records<D: Disk>(alloc: Global, disk: &mut D, len: u64) -> Result<Listed, AttachWhy>
    requires { len ≤ 2 ^ 62 }
    ensures tells { (D.view disk.new).tells ≡ (D.view disk.old).tells }
    ensures history { (D.view disk.new).history ≡ (D.view disk.old).history }
    ensures bound { IfOk result (λ listed. listed.gate < 2 ^ 62) }
    ensures places { IfOk result (λ listed. PlacedFrom 17 listed.payloads listed.gate) }
    ensures ok { IsTrue (D.view disk.old).tells → len ≡ length (contents_of (D.view disk.old).history)
        → IfOk result (λ listed.
        Spells (contents_of (D.view disk.old).history) (records_of listed.payloads) listed.gate) }
    ensures err { IsTrue (D.view disk.old).tells → len ≡ length (contents_of (D.view disk.old).history)
        → IfErr result (λ why. ExplainsFile (contents_of (D.view disk.old).history) why) }
    ensures cause { HasCause (D.view disk.old).faults (D.view disk.new).faults
        (IsErrOf result AttachWhy.DiskFault) }
{
    let mut payloads = Payloads::new(alloc);
    let mut gate = FIRST_GATE;
    while gate < len {
        match read_gate(disk, gate) {
            None => return Err(AttachWhy::DiskFault),
            Some(false) => return Ok(Listed { payloads, gate }),
            Some(true) => {}
        }
        let (placed, next) = read_record(alloc, disk, gate)?;
        payloads.push(placed)?;
        gate = next;
    }
    Err(AttachWhy::NotAJournal)
}

/// The records of a file up to its first closed gate.
pub(crate) fn list_file<D: Disk>(alloc: Global, disk: &mut D) -> Result<Listed, AttachWhy>
    ensures file { IsReadFile (D.view disk.old) (D.view disk.new) }
    ensures ok { IfOk result (λ listed. IsListedFile (D.view disk.old) listed.payloads listed.gate) }
    ensures err { IsTrue (D.view disk.old).tells → IfErr result (λ why.
        ExplainsFile (contents_of (D.view disk.old).history) why) }
    ensures cause { HasCause (D.view disk.old).faults (D.view disk.new).faults
        (IsErrOf result AttachWhy.DiskFault) }
{
    match disk.len() {
        DiskLen::Len(len) => read_records(alloc, disk, len),
        DiskLen::Failed => Err(AttachWhy::DiskFault),
    }
}
