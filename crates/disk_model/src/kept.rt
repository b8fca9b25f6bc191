ghost use Rattle.std.specs.Prelude.{◌≡◌, ◌<◌, ◌≤◌, ◌+◌, ◌-◌, ◌^◌, ◌⊎◌, [], ◌∷◌, ◌++◌, false, length, IfOk, IsTrue, vec_len, vec_capacity, min};
ghost use Rattle.disk_model.specs.Disk.{Write, Refused};
ghost use Rattle.std.specs.Prelude.{map, take, replicate, OnOk};
ghost use Rattle.disk_model.specs.Disk.{after, at_first};
ghost use Rattle.disk_model.specs.Kept.{keeps_call, keeps_place, as_kept, keeps_write};
ghost use Rattle.disk_model.specs.Kept.{size_of, call_of as kept_call, bytes_after, total_of, calls_of};
ghost use Rattle.disk_model.specs.Made.{call_of};
ghost use Rattle.disk_model.specs.Marks.{Knows};

use crate::made::Made;
use crate::replay::{Replay, replayed};
use cfg_base::NoMemory;
use std::alloc::{AllocError, Global};
use std::marker::Model;

/// One call of a disk in memory. A write's bytes stand elsewhere.
#[derive(Clone, Copy, Debug, PartialEq, Eq)]
pub(crate) enum Kept {
    Written { at: u64, count: usize },
    Missed { at: u64, count: usize },
    Synced { cleared: bool },
}

/// The record of the calls of a disk in memory, whose room is taken when it is made: for as many
/// calls as may be done, and as many failed ones again.
#[derive(Drop)]
pub(crate) struct CallRecord {
    kept: Vec<Kept>,
    written: Vec<u8>,
    refused: u64,
    room: usize,
    limit: u32,
}

impl Model for CallRecord {
    ghost use Rattle.std.specs.Prelude.{◌≡◌, ◌<◌, ◌≤◌, ◌+◌, ◌^◌, length, vec_capacity};
    ghost use Rattle.disk_model.specs.Kept.{RecordView};

    ghost Value = { RecordView };

    ghost use Rattle.disk_model.specs.Kept.{recorded};
    ghost use Rattle.disk_model.specs.RecordInvariant.{IsWhole};

    ghost view = { λ r. record {
      calls = recorded r.kept.items r.written.items r.refused;
      room = r.room;
      limit = r.limit;
    } };

    ghost invariant = { IsWhole };
}

fn push_within<T: Drop>(items: &mut Vec<T>, item: T)
    requires { vec_len items.old < vec_capacity items.old }
    ensures items { items.new.items ≡ items.old.items ++ item ∷ [] }
    ensures capacity { vec_capacity items.old ≤ vec_capacity items.new }
{
    let pushed = items.push(item);
    let done = pushed.is_ok();
    prove!(done);
}

fn extend_within(bytes: &mut Vec<u8>, piece: &[u8])
    requires { vec_len bytes.old + length piece.now ≤ vec_capacity bytes.old }
    ensures items { bytes.new.items ≡ bytes.old.items ++ piece.now }
    ensures capacity { vec_capacity bytes.old ≤ vec_capacity bytes.new }
{
    let extended = bytes.extend_from_slice(piece);
    let done = extended.is_ok();
    prove!(done);
}

impl CallRecord {
    /// An empty record with room for writes of that many bytes and for that many calls.
    pub(crate) fn new(alloc: Global, room: usize, limit: u32) -> Result<CallRecord, NoMemory>
        ensures { IfOk result (λ r. r ≡ record { calls = []; room = room; limit = limit }) }
    {
        Ok(CallRecord {
            kept: Vec::with_capacity(alloc, 2 * limit as usize)?,
            written: Vec::with_capacity(alloc, room)?,
            refused: 0,
            room,
            limit,
        })
    }

    /// Whether one call more may be done.
    pub(crate) fn keeps_call(&self) -> bool
        ensures { result ≡ keeps_call self.now }
    {
        self.kept.len() < self.limit as usize
    }

    /// Whether a write of that many bytes may be done.
    pub(crate) fn keeps_write(&self, count: usize) -> bool
        ensures { result ≡ keeps_write self.now count }
    {
        self.keeps_call() && count <= self.room - self.written.len()
    }

    /// How many calls there were.
    pub(crate) fn count(&self) -> u64
        ensures { result ≡ length self.now.calls }
    {
        self.kept.len() as u64 + self.refused
    }

    /// Keeps a write that took effect.
    pub(crate) fn keep_write(&mut self, at: u64, piece: &[u8])
        requires { IsTrue (keeps_write self.old (length piece.now)) }
        ensures { self.new ≡ record self.old { calls = self.old.calls ++ Write at piece.now ∷ [] } }
    {
        extend_within(&mut self.written, piece);
        let count = piece.len();
        push_within(&mut self.kept, Kept::Written { at, count });
    }

    /// Keeps a call without bytes. Past the record's room it is only counted.
    pub(crate) fn keep(&mut self, call: Kept)
        requires { size_of call ≡ 0 }
        ensures { (self.new ≡ record self.old { calls = self.old.calls ++ as_kept self.old (kept_call call []) ∷ [] })
            ⊎ ((2 ^ 64 - 1 ≤ length self.old.calls) × (keeps_place self.old ≡ false) × (self.new ≡ self.old)) }
    {
        if self.kept.len() < 2 * self.limit as usize {
            push_within(&mut self.kept, call);
        } else if self.count() < u64::MAX {
            self.refused += 1;
        }
    }

    /// The state after so many of the calls, over what the disk held at first.
    pub(crate) fn replay_to(
        &self,
        alloc: Global,
        first: &[u8],
        call: u32,
    ) -> Result<Replay, NoMemory>
        ensures { IfOk result (λ r. Knows r.bytes.items r.marks.items r.synced
            (after (at_first first.now) (take call self.now.calls))) }
    {
        let count = (call as usize).min(self.kept.len());
        Ok(replayed(alloc, first, &self.kept[..count], &self.written)?)
    }

    /// The calls, first to last.
    pub(crate) fn show(&self, alloc: Global) -> Result<Vec<Made<'_>>, NoMemory>
        ensures { IfOk result (λ made. map call_of made.items ≡ self.now.calls) }
    {
        let mut made = shown(alloc, &self.kept, &self.written)?;
        push_refused(&mut made, self.refused)?;
        Ok(made)
    }
}

// One call, and the bytes of the writes after it.
fn show_call<'a>(call: &Kept, bytes: &'a [u8]) -> (Made<'a>, &'a [u8])
    requires { size_of call.now ≤ length bytes.now }
    ensures call { call_of result.0 ≡ kept_call call.now bytes.now }
    ensures rest { result.1.now ≡ bytes_after call.now bytes.now }
{
    match *call {
        Kept::Written { at, count } => {
            let (bytes, rest) = bytes.split_at(count);
            (Made::Wrote { at, bytes }, rest)
        }
        Kept::Missed { at, count } => (Made::Missed { at, count }, bytes),
        Kept::Synced { cleared } => (Made::Synced { cleared }, bytes),
    }
}

fn shown<'a>(alloc: Global, kept: &[Kept], written: &'a [u8]) -> Result<Vec<Made<'a>>, AllocError>
    requires { total_of kept.now ≤ length written.now }
    ensures { IfOk result (λ made. map call_of made.items ≡ calls_of kept.now written.now) }
{
    let mut made = Vec::new(alloc);
    let mut rest = kept;
    let mut bytes = written;
    while let [call, later @ ..] = rest {
        let (first, after) = show_call(call, bytes);
        made.push(first)?;
        bytes = after;
        rest = later;
    }
    Ok(made)
}

fn push_refused(made: &mut Vec<Made<'_>>, count: u64) -> Result<(), AllocError>
    ensures { OnOk result (map call_of made.new.items
        ≡ map call_of made.old.items ++ replicate count Refused) }
{
    for _ in 0..count {
        made.push(Made::TurnedDown)?;
    }
    Ok(())
}
