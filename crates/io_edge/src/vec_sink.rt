ghost use Rattle.std.specs.Prelude.{Some, ◌≡◌, ◌<◌, ◌≤◌, ◌↔◌, ◌+◌, [], length, IfOk};
ghost use Rattle.io_edge.specs.Ends.{held_after};
ghost use Rattle.cfg_base.specs.Counts.{Rose};
ghost use Rattle.io_edge.specs.Written.{written, GivesAtMost, TakesWhatFits};
ghost use Rattle.io_edge.specs.Calls.{next_count, no_calls};
ghost use Rattle.io_edge.specs.Forms.{IsRefused};

use crate::calls::Calls;
use crate::ends::{Put, Sink};
use cfg_base::NoMemory;
use std::alloc::Global;
use std::marker::Model;

/// A sink in memory, of a stated room. A write takes what fits.
#[derive(Debug, Drop)]
pub struct VecSink {
    bytes: Vec<u8>,
    room: usize,
    calls: Calls,
}

impl Model for VecSink {
    ghost use Rattle.std.specs.Prelude.{◌+◌, ◌≤◌, vec_len};
    ghost use Rattle.std.specs.Vec.{vec_capacity};
    ghost use Rattle.io_edge.specs.Forms.{VecSinkView};

    ghost Value = { VecSinkView };

    ghost view = { λ s. record { held = s.bytes.items; room = s.room; calls = s.calls } };

    ghost invariant = { λ s. vec_len s.bytes + s.room ≤ vec_capacity s.bytes };
}

impl VecSink {
    /// A sink of this room, of whose writes those of these numbers, counted from 1, fail.
    pub fn new(alloc: Global, room: u64, failing: Vec<u64>) -> Result<VecSink, NoMemory>
        ensures held { IfOk result (λ sink. sink.held ≡ []) }
        ensures room { IfOk result (λ sink. sink.room ≡ room) }
        ensures calls { IfOk result (λ sink. sink.calls ≡ no_calls failing.items) }
    {
        let room = room as usize;
        Ok(VecSink {
            bytes: Vec::with_capacity(alloc, room)?,
            room,
            calls: Calls::new(failing),
        })
    }

    /// The bytes that were written.
    pub fn contents(&self) -> &[u8]
        ensures { result.now ≡ self.now.held }
    {
        &self.bytes
    }
}

impl Sink for VecSink {
    ghost view = { λ s. record { held = Some s.held; faults = s.calls.faults } };

    fn write(&mut self, piece: &[u8]) -> Put
        requires { 0 < length piece.now }
        ensures count { GivesAtMost result (length piece.now) }
        ensures bytes { Some self.new.held ≡ held_after (Some self.old.held) (written result piece.now) }
        ensures later { self.old.calls.faults ≤ self.new.calls.faults }
        ensures failed { result ≡ Put.Failed → Rose self.old.calls.faults self.new.calls.faults }
        // Only the calls of the stated numbers fail, and those for which there is no room.
        ensures fails { result ≡ Put.Failed ↔ IsRefused self.old }
        ensures fits { TakesWhatFits result self.old.room (length piece.now) }
        ensures room { self.old.room ≡ length (written result piece.now) + self.new.room }
        ensures made { self.new.calls.made ≡ next_count self.old.calls.made }
        ensures failing { self.new.calls.failing ≡ self.old.calls.failing }
    {
        if self.calls.fails() {
            return Put::Failed;
        }
        if self.room == 0 {
            self.calls.fault();
            return Put::Failed;
        }
        let count = self.room.min(piece.len());
        let (fits, _) = piece.split_at(count);
        match self.bytes.extend_from_slice(fits) {
            Ok(()) => {
                self.room -= count;
                Put::Took(count)
            }
            Err(_) => unreachable!(),
        }
    }
}
