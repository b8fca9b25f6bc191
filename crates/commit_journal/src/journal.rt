ghost use Rattle.std.specs.Prelude.{◌≡◌, ◌<◌, ◌+◌, ◌↔◌, length, IsTrue, OnOk, OnErr, IsErr, IfOk};
ghost use Rattle.commit_journal.specs.Journal.{IsIdle, IsInFlight, IsImageInFlight, IsRecordInFlight, PairCause, disk_a, disk_b, calls_a, calls_b};
ghost use Rattle.commit_journal.specs.Steps.{IsAppended, IsAppendFaulted, IsAppendSafe, IsSettledAs, IsSettleFaulted, IsSettleSafe, Counts, Stays};
ghost use Rattle.commit_journal.specs.Rotated.{IsRotated, IsRotateFaulted, IsRotateSafe};

use crate::appending::append_to;
use crate::choosing::choose_anew;
use crate::fault::DiskFault;
use crate::flight::Flight;
use crate::header::FILE_GATE;
use crate::rotating::rotate_to;
use crate::settling::{Settled, settle_files};
use cfg_base::Calls;
use disk_model::{Disk, DiskDone};
use record_code::Encoded;
use std::marker::Model;
use std::mem;

/// The last place that a gate has.
const LAST_GATE: u64 = (1 << 62) - 1;

/// A list of records on two disks, which a crash at any moment leaves as it was or as it was to be.
#[derive(Drop)]
pub struct Journal<D: Disk> {
    pub(crate) counting: D,
    pub(crate) other: D,
    pub(crate) b_counts: bool,
    pub(crate) gate: u64,
    // That of the file that counts.
    pub(crate) generation: u64,
    pub(crate) flight: Flight,
    pub(crate) limit: u64,
    pub(crate) counting_calls: u64,
    pub(crate) other_calls: u64,
}

impl<D: Disk> Model for Journal<D> {
    ghost use Rattle.commit_journal.specs.Journal.{JournalView, IsWhole, IsNumbered, IsBeside};

    ghost Value = { JournalView };

    ghost view = { λ j. record {
      counting = D.view j.counting;
      other = D.view j.other;
      b_counts = j.b_counts;
      gate = j.gate;
      flight = j.flight;
      limit = j.limit;
      counting_calls = j.counting_calls;
      other_calls = j.other_calls;
    } };

    ghost invariant = { λ j. IsWhole (D.view j.counting) j.gate j.flight
        × (IsNumbered (D.view j.counting) j.generation × IsBeside (D.view j.other) j.generation j.flight) };
}

impl<D: Disk> Journal<D> {
    /// Adds a record. At `Ok` each crash from then on leaves it; after a fault it is in flight.
    pub fn append(&mut self, body: &Encoded) -> Result<(), DiskFault>
        requires idle { IsIdle self.old }
        requires one { length body.now ≡ 1 }
        ensures ok { OnOk result (IsAppended self.old body.now self.new) }
        ensures err { OnErr result (IsAppendFaulted self.old body.now self.new) }
        ensures safe { IsAppendSafe self.old body.now self.new }
        ensures counts { Counts self.old self.new }
        ensures stays { Stays self.old self.new }
        ensures cause { PairCause (disk_a self.old).faults (disk_a self.new).faults
            (disk_b self.old).faults (disk_b self.new).faults (IsErr result) }
    {
        let entry = body.as_bytes();
        let tried = append_to(&mut self.counting, self.gate, entry);
        self.counting_calls = self.counting_calls.saturating_add(tried.calls);
        match tried.done {
            DiskDone::Done => {
                self.gate += entry.len() as u64;
                Ok(())
            }
            DiskDone::Failed => {
                let next = self.gate + entry.len() as u64;
                self.flight = Flight::Record(next.min(LAST_GATE));
                Err(DiskFault)
            }
        }
    }

    /// Whether the used part of the file that counts would pass the limit with so many bytes more.
    pub fn needs_rotation(&self, bytes: u64) -> bool
        ensures { IsTrue result ↔ (self.now.limit < self.now.gate + 1 + bytes) }
    {
        let used = self.gate + 1;
        used > self.limit || bytes > self.limit - used
    }

    /// Makes the records of an image the list, in the other file, which counts from then on. After a
    /// fault the image is in flight.
    pub fn rotate(&mut self, image: &Encoded) -> Result<(), DiskFault>
        requires { IsIdle self.old }
        ensures ok { OnOk result (IsRotated self.old image.now self.new) }
        ensures err { OnErr result (IsRotateFaulted self.old image.now self.new) }
        ensures safe { IsRotateSafe self.old image.now self.new }
        ensures counts { Counts self.old self.new }
        ensures stays { Stays self.old self.new }
        ensures cause { PairCause (disk_a self.old).faults (disk_a self.new).faults
            (disk_b self.old).faults (disk_b self.new).faults (IsErr result) }
    {
        let records = image.with_gate();
        let generation = self.generation.wrapping_add(1);
        let tried = rotate_to(&mut self.other, generation, records);
        self.other_calls = self.other_calls.saturating_add(tried.calls);
        let next = FILE_GATE + records.len() as u64;
        match tried.done {
            DiskDone::Done => {
                mem::swap(&mut self.counting, &mut self.other);
                mem::swap(&mut self.counting_calls, &mut self.other_calls);
                self.b_counts = !self.b_counts;
                self.gate = next;
                self.generation = generation;
                Ok(())
            }
            DiskDone::Failed => {
                self.flight = Flight::Image(next.min(LAST_GATE));
                Err(DiskFault)
            }
        }
    }

    /// Finds out whether what is in flight is kept; after a fault all is as before.
    pub fn settle(&mut self) -> Result<Settled, DiskFault>
        requires { IsInFlight self.old.flight }
        ensures ok { IfOk result (λ settled. IsSettledAs self.old settled self.new) }
        ensures err { OnErr result (IsSettleFaulted self.old self.new) }
        ensures safe { IsSettleSafe self.old self.new }
        ensures counts { Counts self.old self.new }
        ensures stays { Stays self.old self.new }
        ensures cause { PairCause (disk_a self.old).faults (disk_a self.new).faults
            (disk_b self.old).faults (disk_b self.new).faults (IsErr result) }
    {
        match self.flight {
            Flight::Image(next) => self.settle_image(next),
            Flight::Nothing | Flight::Record(_) => self.settle_record(),
        }
    }

    // Whether the record in flight is kept.
    fn settle_record(&mut self) -> Result<Settled, DiskFault>
        requires { IsRecordInFlight self.old.flight }
        ensures ok { IfOk result (λ settled. IsSettledAs self.old settled self.new) }
        ensures err { OnErr result (IsSettleFaulted self.old self.new) }
        ensures safe { IsSettleSafe self.old self.new }
        ensures counts { Counts self.old self.new }
        ensures stays { Stays self.old self.new }
        ensures cause { PairCause (disk_a self.old).faults (disk_a self.new).faults
            (disk_b self.old).faults (disk_b self.new).faults (IsErr result) }
    {
        self.counting_calls = self.counting_calls.saturating_add(1);
        self.other_calls = self.other_calls.saturating_add(1);
        match settle_files(&mut self.counting, &mut self.other, self.gate) {
            Some(true) => {
                self.gate = self.flight.next_or(self.gate);
                self.flight = Flight::Nothing;
                Ok(Settled::Kept)
            }
            Some(false) => {
                self.flight = Flight::Nothing;
                Ok(Settled::NotKept)
            }
            None => Err(DiskFault),
        }
    }

    // Which file counts, where an image with its last gate there is in flight.
    fn settle_image(&mut self, next: u64) -> Result<Settled, DiskFault>
        requires { self.old.flight ≡ Flight.Image next }
        ensures ok { IfOk result (λ settled. IsSettledAs self.old settled self.new) }
        ensures err { OnErr result (IsSettleFaulted self.old self.new) }
        ensures safe { IsSettleSafe self.old self.new }
        ensures counts { Counts self.old self.new }
        ensures stays { Stays self.old self.new }
        ensures cause { PairCause (disk_a self.old).faults (disk_a self.new).faults
            (disk_b self.old).faults (disk_b self.new).faults (IsErr result) }
    {
        let generation = self.generation.wrapping_add(1);
        self.counting_calls = self.counting_calls.saturating_add(1);
        self.other_calls = self.other_calls.saturating_add(1);
        match choose_anew(&mut self.counting, &mut self.other, generation) {
            Some(true) => {
                mem::swap(&mut self.counting, &mut self.other);
                mem::swap(&mut self.counting_calls, &mut self.other_calls);
                self.b_counts = !self.b_counts;
                self.gate = next;
                self.generation = generation;
                self.flight = Flight::Nothing;
                Ok(Settled::NotKept)
            }
            Some(false) => {
                self.flight = Flight::Nothing;
                Ok(Settled::NotKept)
            }
            None => Err(DiskFault),
        }
    }

    /// How many calls of `write_at` and `sync` each disk made since the journal was opened.
    pub fn calls(&self) -> Calls
        ensures a { result.a ≡ calls_a self.now }
        ensures b { result.b ≡ calls_b self.now }
    {
        if self.b_counts {
            Calls {
                a: self.other_calls,
                b: self.counting_calls,
            }
        } else {
            Calls {
                a: self.counting_calls,
                b: self.other_calls,
            }
        }
    }

    /// Whether B is the file that counts.
    pub fn counts_b(&self) -> bool
        ensures { result ≡ self.now.b_counts }
    {
        self.b_counts
    }

    /// How long the used part of a file may be.
    pub fn limit(&self) -> u64
        ensures { result ≡ self.now.limit }
    {
        self.limit
    }

    /// The disks A and B.
    pub fn into_disks(self) -> (D, D)
        ensures a { D.view result.0 ≡ disk_a self }
        ensures b { D.view result.1 ≡ disk_b self }
    {
        let Journal {
            counting,
            other,
            b_counts,
            gate: _,
            generation: _,
            flight: _,
            limit: _,
            counting_calls: _,
            other_calls: _,
        } = self;
        if b_counts {
            (other, counting)
        } else {
            (counting, other)
        }
    }
}
