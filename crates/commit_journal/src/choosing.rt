//! How it is found out whether an image that was in flight is the list.

ghost use Rattle.std.specs.Prelude.{◌≡◌, ◌+◌, ◌%◌, ◌^◌, ◌↔◌, IsTrue, IsSome, IfSome, IsNone};
ghost use Rattle.disk_model.specs.Disk.{contents_of, HasCause};
ghost use Rattle.commit_journal.specs.Files.{IsReadFile, IsSyncedFile};
ghost use Rattle.commit_journal.specs.Journal.{PairCause};
ghost use Rattle.commit_journal.specs.Pair.{file_gate, generation, MadeCalls};

use crate::header::read_header;
use crate::settling::sync_file;
use disk_model::{Disk, DiskDone};

// Whether the gate of a file is open and its generation is this one.
fn is_new<D: Disk>(disk: &mut D, number: u64) -> Option<bool>
    ensures file { IsReadFile (D.view disk.old) (D.view disk.new) }
    ensures told { IsTrue (D.view disk.old).tells → IfSome result (λ told. IsTrue told ↔
        ((file_gate (contents_of (D.view disk.old).history) ≡ 1)
        × (generation (contents_of (D.view disk.old).history) ≡ number))) }
    ensures cause { HasCause (D.view disk.old).faults (D.view disk.new).faults (IsNone result) }
{
    match read_header(disk) {
        Some(header) => Some(header.is_open && header.generation == number),
        None => None,
    }
}

/// Syncs both files, and reports whether the other one is open with this generation.
pub(crate) fn choose_anew<D: Disk>(counting: &mut D, other: &mut D, number: u64) -> Option<bool>
    ensures counting { IsSyncedFile (D.view counting.old) (D.view counting.new) (IsSome result) }
    ensures other { IsSyncedFile (D.view other.old) (D.view other.new) (IsSome result) }
    ensures calls { IsTrue (D.view counting.old).tells →
        MadeCalls (D.view counting.old).history (D.view counting.new).history 1 }
    ensures other_calls { IsTrue (D.view other.old).tells →
        MadeCalls (D.view other.old).history (D.view other.new).history 1 }
    ensures told { IsTrue (D.view other.old).tells → IfSome result (λ told. IsTrue told ↔
        ((file_gate (contents_of (D.view other.new).history) ≡ 1)
        × (generation (contents_of (D.view other.new).history) ≡ number))) }
    ensures cause { PairCause (D.view counting.old).faults (D.view counting.new).faults
        (D.view other.old).faults (D.view other.new).faults (IsNone result) }
{
    match (sync_file(counting), sync_file(other)) {
        (DiskDone::Done, DiskDone::Done) => is_new(other, number),
        _ => None,
    }
}
