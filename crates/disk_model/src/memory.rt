ghost use Rattle.std.specs.Prelude.{◌≡◌, ◌≤◌, ◌<◌, ◌+◌, ◌-◌, ◌^◌, ◌↔◌, ◌++◌, ◌∷◌, [], ℕ, length, min, is_none, true, false, IfOk, IsTrue};
ghost use Rattle.std.specs.Prelude.{◌==◌};
ghost use Rattle.std.specs.List.{list_any};
ghost use Rattle.disk_model.specs.Disk.{History, Call, Write, Missed, Sync, Refused, contents_of};
ghost use Rattle.disk_model.specs.Disk.{Wrote, Synced, Called, TookNoEffect, Gives, HasCause, IfLen, IfRead};
ghost use Rattle.disk_model.specs.Memory.{MemView, has_call, has_room, mode_of, next_mode, kept_as, write_call, sync_call, DidCall};
ghost use Rattle.disk_model.specs.Memory.{is_write_done, is_sync_done, one_fault};
ghost use Rattle.disk_model.specs.Memory.{next_read, fails_read, DidRead};
ghost use Rattle.std.specs.Prelude.{map};
ghost use Rattle.disk_model.specs.Disk.{LeftAfter};
ghost use Rattle.disk_model.specs.Made.{call_of};
ghost use Rattle.disk_model.specs.Replay.{HoldsImage, fresh};

use crate::disk::{Disk, DiskDone, DiskLen, DiskRead};
use crate::failing::{FailAt, FailMode};
use crate::kept::{CallRecord, Kept};
use crate::made::Made;
use crate::moves::{put_within, read_bytes};
use crate::replay::chosen_image;
use crate::torn::Torn;
use cfg_base::NoMemory;
use std::alloc::Global;
use std::marker::Model;

/// The most bytes that a disk holds.
const MAX_LEN: u64 = 1 << 62;

/// A disk in memory, whose calls fail as its maker says. It keeps a record of all its calls.
#[derive(Drop)]
pub struct MemDisk {
    first: Vec<u8>,
    bytes: Vec<u8>,
    calls: CallRecord,
    room: u64,
    limit: u32,
    failing: Vec<FailAt>,
    reads: u64,
    failing_reads: Vec<u64>,
    faults: u64,
}

impl Model for MemDisk {
    ghost use Rattle.disk_model.specs.Memory.{MemView};

    ghost Value = { MemView };

    ghost use Rattle.disk_model.specs.MemInvariant.{IsReplay};

    ghost view = { λ d. record {
      history = record { first = d.first.items; calls = d.calls.calls };
      faults = d.faults;
      room = d.room;
      limit = d.limit;
      failing = d.failing.items;
      reads = d.reads;
      failing_reads = d.failing_reads.items;
    } };

    ghost invariant = { IsReplay };
}

fn mode_of(failing: &[FailAt], number: u64) -> Option<FailMode>
    ensures { result ≡ mode_of failing.now number }
{
    failing
        .iter()
        .find(|f| u64::from(f.call) == number)
        .map(|f| f.mode)
}

fn names(numbers: &[u64], number: u64) -> bool
    ensures { result ≡ list_any (λ n. n == number) numbers.now }
{
    numbers.iter().any(|&n| n == number)
}

impl MemDisk {
    /// An empty disk with that room and that stated number of calls, all of whose memory is taken now.
    pub fn new(
        alloc: Global,
        room: u64,
        calls: u32,
        failing: Vec<FailAt>,
        failing_reads: Vec<u64>,
    ) -> Result<MemDisk, NoMemory>
        ensures { IfOk result (λ d. d ≡ record {
          history = record { first = []; calls = [] };
          faults = 0;
          room = room;
          limit = calls;
          failing = failing.items;
          reads = 0;
          failing_reads = failing_reads.items;
        }) }
    {
        // No machine has more memory than the longest disk has bytes.
        if room > MAX_LEN {
            return Err(NoMemory);
        }
        Ok(MemDisk {
            first: Vec::new(alloc),
            bytes: Vec::with_capacity(alloc, room as usize)?,
            calls: CallRecord::new(alloc, room as usize, calls)?,
            room,
            limit: calls,
            failing,
            reads: 0,
            failing_reads,
            faults: 0,
        })
    }

    /// What it holds.
    pub fn contents(&self) -> &[u8]
        ensures { result.now ≡ contents_of self.now.history }
    {
        &self.bytes
    }

    /// How many calls of `write_at` and `sync` it has counted.
    pub fn count(&self) -> u64
        ensures { result ≡ length self.now.history.calls }
    {
        self.calls.count()
    }

    /// How many bytes it has room for.
    pub fn room(&self) -> u64
        ensures { result ≡ self.now.room }
    {
        self.room
    }

    /// How many of its calls have failed.
    pub fn faults(&self) -> u64
        ensures { result ≡ self.now.faults }
    {
        self.faults
    }

    /// Its calls of `write_at` and `sync`, first to last.
    pub fn calls(&self, alloc: Global) -> Result<Vec<Made<'_>>, NoMemory>
        ensures { IfOk result (λ made. map call_of made.items ≡ self.now.history.calls) }
    {
        self.calls.show(alloc)
    }

    /// What a crash after so many calls and before the next may leave, with these torn bytes.
    pub fn image_after(&self, alloc: Global, call: u32, torn: &Torn) -> Result<MemDisk, NoMemory>
        requires made { call ≤ length self.now.history.calls }
        requires room { torn.now.length ≤ self.now.room }
        ensures chosen { IfOk result (λ d. HoldsImage self.now call torn.now d) }
        ensures left { IfOk result (λ d. LeftAfter self.now.history call d.history.first) }
    {
        let replay = self.calls.replay_to(alloc, &self.first, call)?;
        let image = chosen_image(alloc, replay, torn)?;
        self.fresh(alloc, image)
    }

    fn fresh(&self, alloc: Global, image: Vec<u8>) -> Result<MemDisk, NoMemory>
        requires { length image.items ≤ self.now.room }
        ensures { IfOk result (λ d. d ≡ fresh self.now image.items) }
    {
        let mut bytes = Vec::with_capacity(alloc, self.room as usize)?;
        bytes.extend_from_slice(&image)?;
        Ok(MemDisk {
            first: image,
            bytes,
            calls: CallRecord::new(alloc, self.room as usize, self.limit)?,
            room: self.room,
            limit: self.limit,
            failing: Vec::new(alloc),
            reads: 0,
            failing_reads: Vec::new(alloc),
            faults: 0,
        })
    }

    fn has_room(&self, at: u64, count: usize) -> bool
        ensures room { result ≡ has_room self.now at count }
        ensures bound { IsTrue result → at + count ≤ 2 ^ 62 }
    {
        self.calls.keeps_write(count) && at <= self.room && count as u64 <= self.room - at
    }

    fn has_call(&self) -> bool
        ensures { result ≡ has_call self.now }
    {
        self.calls.keeps_call()
    }

    fn next_mode(&self) -> Option<FailMode>
        requires { IsTrue (has_call self.now) }
        ensures { result ≡ next_mode self.now }
    {
        mode_of(&self.failing, self.calls.count() + 1)
    }

    fn write(&mut self, at: u64, piece: &[u8])
        requires room { IsTrue (has_room self.old at (length piece.now)) }
        requires at_end { at ≤ length (contents_of self.old.history) }
        ensures { self.new ≡ record self.old {
          history = record {
            first = self.old.history.first;
            calls = self.old.history.calls ++ Write at piece.now ∷ [];
          };
        } }
    {
        self.calls.keep_write(at, piece);
        put_within(&mut self.bytes, at as usize, piece);
    }

    // A write that takes no effect.
    fn miss(&mut self, at: u64, count: usize)
        ensures did { DidCall self.old (kept_as self.old (Missed at count)) self.new }
        ensures fault { self.new.faults ≡ one_fault self.old }
        ensures cause { HasCause self.old.faults self.new.faults (Unit {0}) }
    {
        self.calls.keep(Kept::Missed { at, count });
        self.faults = self.faults.saturating_add(1);
    }

    fn settle(&mut self)
        requires { IsTrue (has_call self.old) }
        ensures { self.new ≡ record self.old {
          history = record {
            first = self.old.history.first;
            calls = self.old.history.calls ++ Sync true ∷ [];
          };
        } }
    {
        self.calls.keep(Kept::Synced { cleared: true });
    }

    // A sync that clears nothing.
    fn leave_pending(&mut self)
        ensures did { DidCall self.old (kept_as self.old (Sync false)) self.new }
        ensures fault { self.new.faults ≡ one_fault self.old }
        ensures cause { HasCause self.old.faults self.new.faults (Unit {0}) }
    {
        self.calls.keep(Kept::Synced { cleared: false });
        self.faults = self.faults.saturating_add(1);
    }

    fn count_fault(&mut self)
        ensures same { self.new ≡ record self.old { faults = one_fault self.old } }
        ensures cause { HasCause self.old.faults self.new.faults (Unit {0}) }
    {
        self.faults = self.faults.saturating_add(1);
    }

    fn read_fails(&mut self) -> bool
        ensures fails { result ≡ fails_read self.old }
        ensures calm { result ≡ false → self.new.faults ≡ self.old.faults }
        ensures fault { IsTrue result → self.new.faults ≡ one_fault self.old }
        ensures did { DidRead self.old self.new }
        ensures cause { HasCause self.old.faults self.new.faults (IsTrue result) }
    {
        self.reads = self.reads.saturating_add(1);
        if names(&self.failing_reads, self.reads) {
            self.faults = self.faults.saturating_add(1);
            return true;
        }
        false
    }
}

impl Disk for MemDisk {
    ghost view = { λ d. record { tells = true; history = d.history; faults = d.faults } };

    fn len(&mut self) -> DiskLen
        ensures tells { true ≡ true }
        ensures history { self.new.history ≡ self.old.history }
        ensures bound { IfLen result (λ n. n ≤ 2 ^ 62) }
        ensures length { IsTrue true → IfLen result (λ n. n ≡ length (contents_of self.old.history)) }
        ensures cause { HasCause self.old.faults self.new.faults (result ≡ DiskLen.Failed) }
        ensures did { DidRead self.old self.new }
        ensures fails { (result ≡ DiskLen.Failed) ↔ IsTrue (fails_read self.old) }
        ensures calm { IfLen result (λ _. self.new.faults ≡ self.old.faults) }
        ensures fault { result ≡ DiskLen.Failed → self.new.faults ≡ one_fault self.old }
    {
        if self.read_fails() {
            return DiskLen::Failed;
        }
        DiskLen::Len(self.bytes.len() as u64)
    }

    fn read_at(&mut self, at: u64, into: &mut [u8]) -> DiskRead
        ensures tells { true ≡ true }
        ensures history { self.new.history ≡ self.old.history }
        ensures bound { IfRead result (λ n. n ≤ length into.old) }
        ensures bytes { IsTrue true → IfRead result (λ n.
            Gives (contents_of self.old.history) at n into.old into.new) }
        ensures cause { HasCause self.old.faults self.new.faults (result ≡ DiskRead.Failed) }
        ensures did { DidRead self.old self.new }
        ensures fails { (result ≡ DiskRead.Failed) ↔ IsTrue (fails_read self.old) }
        ensures calm { IfRead result (λ _. self.new.faults ≡ self.old.faults) }
        ensures fault { result ≡ DiskRead.Failed → self.new.faults ≡ one_fault self.old }
    {
        if self.read_fails() {
            return DiskRead::Failed;
        }
        DiskRead::Read(read_bytes(&self.bytes, at, into))
    }

    fn write_at(&mut self, at: u64, piece: &[u8]) -> DiskDone
        requires { IsTrue true → at ≤ length (contents_of self.old.history) }
        ensures tells { true ≡ true }
        ensures bound { result ≡ DiskDone.Done → at + length piece.now ≤ 2 ^ 62 }
        ensures past { IsTrue true → 2 ^ 62 < at + length piece.now →
            TookNoEffect self.old.history at (length piece.now) self.new.history }
        ensures written { IsTrue true →
            Wrote self.old.history at piece.now (result ≡ DiskDone.Done) self.new.history }
        ensures cause { HasCause self.old.faults self.new.faults (result ≡ DiskDone.Failed) }
        ensures did { DidCall self.old (write_call self.old at piece.now) self.new }
        ensures done { (result ≡ DiskDone.Done)
            ↔ IsTrue (is_write_done self.old at (length piece.now)) }
        ensures calm { result ≡ DiskDone.Done → self.new.faults ≡ self.old.faults }
        ensures fault { result ≡ DiskDone.Failed → self.new.faults ≡ one_fault self.old }
    {
        if !self.has_room(at, piece.len()) {
            self.miss(at, piece.len());
            return DiskDone::Failed;
        }
        match self.next_mode() {
            None => {
                self.write(at, piece);
                DiskDone::Done
            }
            Some(FailMode::Nothing) => {
                self.miss(at, piece.len());
                DiskDone::Failed
            }
            Some(FailMode::Effect) => {
                self.write(at, piece);
                self.count_fault();
                DiskDone::Failed
            }
        }
    }

    fn sync(&mut self) -> DiskDone
        ensures tells { true ≡ true }
        ensures synced { IsTrue true →
            Synced self.old.history (result ≡ DiskDone.Done) self.new.history }
        ensures cause { HasCause self.old.faults self.new.faults (result ≡ DiskDone.Failed) }
        ensures did { DidCall self.old (sync_call self.old) self.new }
        ensures done { (result ≡ DiskDone.Done) ↔ IsTrue (is_sync_done self.old) }
        ensures calm { result ≡ DiskDone.Done → self.new.faults ≡ self.old.faults }
        ensures fault { result ≡ DiskDone.Failed → self.new.faults ≡ one_fault self.old }
    {
        if !self.has_call() {
            self.leave_pending();
            return DiskDone::Failed;
        }
        match self.next_mode() {
            None => {
                self.settle();
                DiskDone::Done
            }
            Some(FailMode::Nothing) => {
                self.leave_pending();
                DiskDone::Failed
            }
            Some(FailMode::Effect) => {
                self.settle();
                self.count_fault();
                DiskDone::Failed
            }
        }
    }
}
