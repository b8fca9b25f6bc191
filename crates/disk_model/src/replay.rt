ghost use Rattle.std.specs.Prelude.{◌≡◌, ◌≤◌, ◌<◌, ◌+◌, ◌++◌, ◌∷◌, [], true, false, ℕ, length, take, IfOk, OnOk, slice_index, if◌then◌else◌, max};
ghost use Rattle.disk_model.specs.Disk.{DiskState, written, missed, settled, step, after, at_first};
ghost use Rattle.disk_model.specs.Kept.{calls_of, total_of, size_of, call_of, bytes_after};
ghost use Rattle.disk_model.specs.Marks.{covers, is_marked, Knows};
ghost use Rattle.disk_model.specs.Replay.{IsTorn, IsChosenImage};

use crate::kept::Kept;
use crate::moves::put_bytes;
use crate::torn::Torn;
use std::alloc::{AllocError, Global};

/// A write since the last sync: its range, and the length before it.
#[derive(Clone, Copy, Debug, PartialEq, Eq)]
pub(crate) struct Mark {
    at: u64,
    count: usize,
    size: usize,
}

/// The state of a disk after some of its calls.
#[derive(Drop)]
pub(crate) struct Replay {
    pub(crate) bytes: Vec<u8>,
    pub(crate) marks: Vec<Mark>,
    pub(crate) synced: usize,
}

fn covers(mark: &Mark, place: usize) -> bool
    ensures { result ≡ covers mark.now place }
{
    let place = place as u64;
    (mark.at <= place && place - mark.at < mark.count as u64) || mark.size as u64 <= place
}

fn is_marked(marks: &[Mark], place: usize) -> bool
    ensures { result ≡ is_marked marks.now place }
{
    marks.iter().any(|mark| covers(mark, place))
}

fn replay_miss(replay: &mut Replay, at: u64, count: usize) -> Result<(), AllocError>
    ensures { OnOk result ((s : DiskState)
        → Knows replay.old.bytes.items replay.old.marks.items replay.old.synced s
        → Knows replay.new.bytes.items replay.new.marks.items replay.new.synced (missed s at count)) }
{
    let size = replay.bytes.len();
    replay.marks.push(Mark { at, count, size })?;
    Ok(())
}

fn replay_write(replay: &mut Replay, at: u64, piece: &[u8]) -> Result<(), AllocError>
    ensures { OnOk result ((s : DiskState)
        → Knows replay.old.bytes.items replay.old.marks.items replay.old.synced s
        → Knows replay.new.bytes.items replay.new.marks.items replay.new.synced
        (written s at piece.now)) }
{
    replay.marks.push(Mark {
        at,
        count: piece.len(),
        size: replay.bytes.len(),
    })?;
    put_bytes(&mut replay.bytes, at as usize, piece)?;
    Ok(())
}

fn replay_sync(replay: &mut Replay, cleared: bool)
    ensures { (s : DiskState) → Knows replay.old.bytes.items replay.old.marks.items replay.old.synced s
        → Knows replay.new.bytes.items replay.new.marks.items replay.new.synced (settled s cleared) }
{
    if cleared {
        replay.marks.clear();
        replay.synced = replay.bytes.len();
    }
}

// Replays one call, and gives the bytes of the writes after it.
fn replay_call<'a>(
    replay: &mut Replay,
    call: &Kept,
    bytes: &'a [u8],
) -> Result<&'a [u8], AllocError>
    requires { size_of call.now ≤ length bytes.now }
    ensures rest { IfOk result (λ rest. rest.now ≡ bytes_after call.now bytes.now) }
    ensures state { OnOk result ((s : DiskState)
        → Knows replay.old.bytes.items replay.old.marks.items replay.old.synced s
        → Knows replay.new.bytes.items replay.new.marks.items replay.new.synced
        (step s (call_of call.now bytes.now))) }
{
    match *call {
        Kept::Written { at, count } => {
            replay_write(replay, at, &bytes[..count])?;
            Ok(&bytes[count..])
        }
        Kept::Missed { at, count } => {
            replay_miss(replay, at, count)?;
            Ok(bytes)
        }
        Kept::Synced { cleared } => {
            replay_sync(replay, cleared);
            Ok(bytes)
        }
    }
}

/// Replays calls over what a disk held at first.
pub(crate) fn replayed(
    alloc: Global,
    first: &[u8],
    kept: &[Kept],
    written: &[u8],
) -> Result<Replay, AllocError>
    requires { total_of kept.now ≤ length written.now }
    ensures { IfOk result (λ r. Knows r.bytes.items r.marks.items r.synced
        (after (at_first first.now) (calls_of kept.now written.now))) }
{
    let mut replay = Replay {
        bytes: Vec::from_slice(alloc, first)?,
        marks: Vec::new(alloc),
        synced: first.len(),
    };
    let mut rest = kept;
    let mut bytes = written;
    while let [call, later @ ..] = rest {
        bytes = replay_call(&mut replay, call, bytes)?;
        rest = later;
    }
    Ok(replay)
}

// The bytes that a crash leaves where something is pending.
fn torn_image(alloc: Global, replay: &Replay, torn: &Torn) -> Result<Vec<u8>, AllocError>
    ensures { IfOk result (λ image. (s : DiskState)
        → Knows replay.now.bytes.items replay.now.marks.items replay.now.synced s
        → IsTorn s torn.now image.items) }
{
    let size = (torn.length as usize).max(replay.synced);
    let chosen = torn.bytes.as_slice();
    let mut image = Vec::with_capacity(alloc, size)?;
    let mut used = 0;
    for place in 0..size {
        if is_marked(&replay.marks, place) {
            image.push(chosen.get(used).copied().unwrap_or(0))?;
            used += 1;
        } else {
            image.push(replay.bytes.get(place).copied().unwrap_or(0))?;
        }
    }
    Ok(image)
}

/// The image with these torn bytes: the contents where nothing is pending.
pub(crate) fn chosen_image(
    alloc: Global,
    replay: Replay,
    torn: &Torn,
) -> Result<Vec<u8>, AllocError>
    ensures { IfOk result (λ image. (s : DiskState)
        → Knows replay.bytes.items replay.marks.items replay.synced s
        → IsChosenImage s torn.now image.items) }
{
    if replay.marks.is_empty() {
        return Ok(replay.bytes);
    }
    torn_image(alloc, &replay, torn)
}
