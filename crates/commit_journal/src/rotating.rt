//! How the records of an image are written to the file that doesn't count.
//!
//! 1. Its gate is closed, where it is open, and synced.
//! 2. The next generation and the records are written, and synced.
//! 3. Its gate is opened, and synced.

ghost use Rattle.std.specs.Prelude.{◌≡◌, ◌≤◌, ◌+◌, ◌^◌, ◌++◌, ◌∷◌, [], ◌⊎◌, true, List, ℕ, length, IsTrue};
ghost use Rattle.std.specs.Int.{w64, to_be_bytes};
ghost use Rattle.disk_model.specs.Disk.{contents_of, Leaves, HasCause, Write, Sync};
ghost use Rattle.record_code.specs.Record.{Record};
ghost use Rattle.commit_journal.specs.Files.{IsWrittenFile};
ghost use Rattle.commit_journal.specs.Pair.{file_gate, IsQuiet, MadeCalls};
ghost use Rattle.commit_journal.specs.Rotation.{IsReplacement, IsReplacing, IsShut, IsStaged, IsImageOf, closing, staging, rotating};

use crate::appending::{OPEN, Tried};
use crate::header::{FILE_GATE, FIRST_GATE, GENERATION};
use crate::settling::read_gate;
use disk_model::{Disk, DiskDone};

// A closed gate.
const SHUT: u8 = 0;

// Closes the gate of a file whose gate is open.
fn shut_gate<D: Disk>(disk: &mut D) -> Tried
    requires { IsTrue (D.view disk.old).tells → 17 ≤ length (contents_of (D.view disk.old).history) }
    ensures file { IsWrittenFile (D.view disk.old) (D.view disk.new) (Write 16 (0 ∷ []) ∷ (Sync true ∷ [])) (result.done ≡ DiskDone.Done) }
    ensures any_moment { IsTrue (D.view disk.old).tells → IsQuiet (D.view disk.old).history
        → file_gate (contents_of (D.view disk.old).history) ≡ 1 → (number next : ℕ) (image : List Record)
        → Leaves (D.view disk.old).history (D.view disk.new).history
        (IsReplacing (contents_of (D.view disk.old).history) number image next) }
    ensures long { result.done ≡ DiskDone.Done → IsTrue (D.view disk.old).tells
        → 17 ≤ length (contents_of (D.view disk.new).history) }
    ensures done { result.done ≡ DiskDone.Done → IsTrue (D.view disk.old).tells → IsQuiet (D.view disk.old).history
        → file_gate (contents_of (D.view disk.old).history) ≡ 1
        → IsShut (contents_of (D.view disk.old).history) (D.view disk.new).history }
    ensures calls { IsTrue (D.view disk.old).tells →
        MadeCalls (D.view disk.old).history (D.view disk.new).history result.calls }
    ensures few { result.calls ≤ 2 }
    ensures two { result.done ≡ DiskDone.Done → result.calls ≡ 2 }
    ensures cause { HasCause (D.view disk.old).faults (D.view disk.new).faults (result.done ≡ DiskDone.Failed) }
{
    if let DiskDone::Failed = disk.write_at(FILE_GATE, &[SHUT]) {
        return Tried {
            done: DiskDone::Failed,
            calls: 1,
        };
    }
    let done = disk.sync();
    Tried { done, calls: 2 }
}

// Closes the gate of a file, where it is open. A closed one isn't written: a crash could leave it open over older bytes.
fn close_gate<D: Disk>(disk: &mut D) -> Tried
    requires { IsTrue (D.view disk.old).tells → 17 ≤ length (contents_of (D.view disk.old).history) }
    ensures file { IsWrittenFile (D.view disk.old) (D.view disk.new)
        (closing (contents_of (D.view disk.old).history)) (result.done ≡ DiskDone.Done) }
    ensures any_moment { IsTrue (D.view disk.old).tells → IsQuiet (D.view disk.old).history
        → (number next : ℕ) (image : List Record)
        → Leaves (D.view disk.old).history (D.view disk.new).history
        (IsReplacing (contents_of (D.view disk.old).history) number image next) }
    ensures long { result.done ≡ DiskDone.Done → IsTrue (D.view disk.old).tells
        → 17 ≤ length (contents_of (D.view disk.new).history) }
    ensures done { result.done ≡ DiskDone.Done → IsTrue (D.view disk.old).tells → IsQuiet (D.view disk.old).history
        → IsShut (contents_of (D.view disk.old).history) (D.view disk.new).history }
    ensures calls { IsTrue (D.view disk.old).tells →
        MadeCalls (D.view disk.old).history (D.view disk.new).history result.calls }
    ensures few { result.calls ≤ 2 }
    ensures none_or_two { result.done ≡ DiskDone.Done → (result.calls ≡ 0) ⊎ (result.calls ≡ 2) }
    ensures cause { HasCause (D.view disk.old).faults (D.view disk.new).faults (result.done ≡ DiskDone.Failed) }
{
    match read_gate(disk, FILE_GATE) {
        Some(true) => shut_gate(disk),
        Some(false) => Tried {
            done: DiskDone::Done,
            calls: 0,
        },
        None => Tried {
            done: DiskDone::Failed,
            calls: 0,
        },
    }
}

// Writes a generation and records to a file whose gate is closed.
fn stage<D: Disk>(disk: &mut D, generation: u64, records: &[u8]) -> Tried
    requires { IsTrue (D.view disk.old).tells → 17 ≤ length (contents_of (D.view disk.old).history) }
    ensures file { IsWrittenFile (D.view disk.old) (D.view disk.new) (staging generation records.now) (result.done ≡ DiskDone.Done) }
    ensures bound { result.done ≡ DiskDone.Done → 17 + length records.now ≤ 2 ^ 62 }
    ensures long { result.done ≡ DiskDone.Done → IsTrue (D.view disk.old).tells
        → 17 ≤ length (contents_of (D.view disk.new).history) }
    ensures any_moment { IsTrue (D.view disk.old).tells → (file : List ℕ) → IsShut file (D.view disk.old).history
        → (number next : ℕ) (image : List Record)
        → Leaves (D.view disk.old).history (D.view disk.new).history (IsReplacing file number image next) }
    ensures done { result.done ≡ DiskDone.Done → IsTrue (D.view disk.old).tells → (file : List ℕ)
        → IsShut file (D.view disk.old).history
        → IsStaged file (to_be_bytes w64 generation) records.now (D.view disk.new).history }
    ensures calls { IsTrue (D.view disk.old).tells →
        MadeCalls (D.view disk.old).history (D.view disk.new).history result.calls }
    ensures few { result.calls ≤ 3 }
    ensures three { result.done ≡ DiskDone.Done → result.calls ≡ 3 }
    ensures cause { HasCause (D.view disk.old).faults (D.view disk.new).faults (result.done ≡ DiskDone.Failed) }
{
    if let DiskDone::Failed = disk.write_at(GENERATION, &generation.to_be_bytes()) {
        return Tried {
            done: DiskDone::Failed,
            calls: 1,
        };
    }
    if let DiskDone::Failed = disk.write_at(FIRST_GATE, records) {
        return Tried {
            done: DiskDone::Failed,
            calls: 2,
        };
    }
    let done = disk.sync();
    Tried { done, calls: 3 }
}

// Opens the gate of a file that holds the records.
fn open_gate<D: Disk>(disk: &mut D) -> Tried
    requires { IsTrue (D.view disk.old).tells → 17 ≤ length (contents_of (D.view disk.old).history) }
    ensures file { IsWrittenFile (D.view disk.old) (D.view disk.new) (Write 16 (1 ∷ []) ∷ (Sync true ∷ [])) (result.done ≡ DiskDone.Done) }
    ensures any_moment { IsTrue (D.view disk.old).tells → (file gen bytes : List ℕ)
        → IsStaged file gen bytes (D.view disk.old).history
        → (number next : ℕ) (image : List Record) → IsImageOf number image next gen bytes
        → Leaves (D.view disk.old).history (D.view disk.new).history (IsReplacing file number image next) }
    ensures done { result.done ≡ DiskDone.Done → IsTrue (D.view disk.old).tells → (file gen bytes : List ℕ)
        → IsStaged file gen bytes (D.view disk.old).history
        → (number next : ℕ) (image : List Record) → IsImageOf number image next gen bytes
        → IsReplacement number image next (contents_of (D.view disk.new).history) }
    ensures quiet { result.done ≡ DiskDone.Done → IsTrue (D.view disk.old).tells → IsQuiet (D.view disk.new).history }
    ensures calls { IsTrue (D.view disk.old).tells →
        MadeCalls (D.view disk.old).history (D.view disk.new).history result.calls }
    ensures few { result.calls ≤ 2 }
    ensures two { result.done ≡ DiskDone.Done → result.calls ≡ 2 }
    ensures cause { HasCause (D.view disk.old).faults (D.view disk.new).faults (result.done ≡ DiskDone.Failed) }
{
    if let DiskDone::Failed = disk.write_at(FILE_GATE, &[OPEN]) {
        return Tried {
            done: DiskDone::Failed,
            calls: 1,
        };
    }
    let done = disk.sync();
    Tried { done, calls: 2 }
}

/// Writes the records of an image to a file and makes it the one with that generation, in three steps.
pub(crate) fn rotate_to<D: Disk>(disk: &mut D, generation: u64, records: &[u8]) -> Tried
    requires { IsTrue (D.view disk.old).tells → 17 ≤ length (contents_of (D.view disk.old).history) }
    ensures file { IsWrittenFile (D.view disk.old) (D.view disk.new)
        (rotating (contents_of (D.view disk.old).history) generation records.now) (result.done ≡ DiskDone.Done) }
    ensures bound { result.done ≡ DiskDone.Done → 17 + length records.now ≤ 2 ^ 62 }
    ensures any_moment { IsTrue (D.view disk.old).tells → IsQuiet (D.view disk.old).history
        → (number next : ℕ) (image : List Record)
        → (17 + length records.now ≤ 2 ^ 62 → IsImageOf number image next (to_be_bytes w64 generation) records.now)
        → Leaves (D.view disk.old).history (D.view disk.new).history
        (IsReplacing (contents_of (D.view disk.old).history) number image next) }
    ensures done { result.done ≡ DiskDone.Done → IsTrue (D.view disk.old).tells → IsQuiet (D.view disk.old).history
        → (number next : ℕ) (image : List Record)
        → IsImageOf number image next (to_be_bytes w64 generation) records.now
        → IsReplacement number image next (contents_of (D.view disk.new).history) }
    ensures quiet { result.done ≡ DiskDone.Done → IsTrue (D.view disk.old).tells → IsQuiet (D.view disk.new).history }
    ensures calls { IsTrue (D.view disk.old).tells →
        MadeCalls (D.view disk.old).history (D.view disk.new).history result.calls }
    ensures few { result.done ≡ DiskDone.Done → (result.calls ≡ 5) ⊎ (result.calls ≡ 7) }
    ensures cause { HasCause (D.view disk.old).faults (D.view disk.new).faults (result.done ≡ DiskDone.Failed) }
{
    let closed = close_gate(disk);
    if let DiskDone::Failed = closed.done {
        return closed;
    }
    let staged = stage(disk, generation, records);
    if let DiskDone::Failed = staged.done {
        return Tried {
            done: DiskDone::Failed,
            calls: closed.calls + staged.calls,
        };
    }
    let opened = open_gate(disk);
    Tried {
        done: opened.done,
        calls: closed.calls + staged.calls + opened.calls,
    }
}
