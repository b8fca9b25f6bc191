ghost use Rattle.std.specs.Prelude.{◌≡◌, ◌≤◌, ◌+◌, length, vec_len, vec_capacity, OnOk, IsOk};
ghost use Rattle.disk_model.specs.Disk.{put, Gives};

use std::alloc::AllocError;

/// Puts a piece at a place, or at the end where that comes first.
pub(crate) fn put_bytes(bytes: &mut Vec<u8>, at: usize, piece: &[u8]) -> Result<(), AllocError>
    ensures items { OnOk result (bytes.new.items ≡ put at piece.now bytes.old.items) }
    ensures fits { at + length piece.now ≤ vec_capacity bytes.old → IsOk result }
    ensures capacity { vec_capacity bytes.old ≤ vec_capacity bytes.new }
{
    let start = at.min(bytes.len());
    let over = piece.len().min(bytes.len() - start);
    bytes[start..start + over].copy_from_slice(&piece[..over]);
    bytes.extend_from_slice(&piece[over..])
}

/// Puts a piece at a place, where the room for it is there.
pub(crate) fn put_within(bytes: &mut Vec<u8>, at: usize, piece: &[u8])
    requires { at + length piece.now ≤ vec_capacity bytes.old }
    ensures items { bytes.new.items ≡ put at piece.now bytes.old.items }
    ensures capacity { vec_capacity bytes.old ≤ vec_capacity bytes.new }
{
    let put = put_bytes(bytes, at, piece);
    let done = put.is_ok();
    prove!(done);
}

/// Reads the bytes that stand at a place, as many as there are up to the length of `into`.
pub(crate) fn read_bytes(file: &[u8], at: u64, into: &mut [u8]) -> usize
    ensures { Gives file.now at result into.old into.new }
{
    let start = (at as usize).min(file.len());
    let count = into.len().min(file.len() - start);
    into[..count].copy_from_slice(&file[start..start + count]);
    count
}
