//! Ends that wait for one another: sources, sinks, clocks, beats and disks with counts that all threads see.

ghost use Rattle.std.specs.Prelude.{None};

use cfg_base::Moment;
use disk_model::{Disk, DiskDone, DiskLen, DiskRead};
use io_edge::{Beat, Clock, Got, Put, Sink, Source};
use script_lines::Fault;
use service::Waker;
use std::alloc::Global;
use std::sync::atomic::AtomicU64;
use std::sync::atomic::Ordering::SeqCst;
use std::sync::{Arc, Wait};
use std::thread;
use std::time::Duration;

/// How often a count is looked at that is waited for, once a millisecond.
const LOOKS: u32 = 10_000;

/// Waits until a count has come so far, and reports whether it has.
fn waits_for<R: std::rt::Clock>(clock: &R, count: &AtomicU64, least: u64) -> bool {
    for _ in 0..LOOKS {
        if count.load(SeqCst) >= least {
            return true;
        }
        thread::sleep(clock, Duration::from_millis(1));
    }
    false
}

/// What a source waits for: so many lines that a sink took, and then so many more beats that were asked.
#[derive(Drop)]
pub(crate) struct Gate {
    pub lines: Arc<AtomicU64>,
    pub least: u64,
    pub beats: Arc<AtomicU64>,
    pub more: u64,
}

impl Gate {
    /// Waits for so many lines alone.
    pub(crate) fn of_lines(
        lines: &Arc<AtomicU64>,
        least: u64,
        beats: &Arc<AtomicU64>,
    ) -> Result<Gate, Fault> {
        Ok(Gate {
            lines: lines.clone()?,
            least,
            beats: beats.clone()?,
            more: 0,
        })
    }

    fn opens<R: std::rt::Clock>(&self, clock: &R) -> bool {
        if !waits_for(clock, &self.lines, self.least) {
            return false;
        }
        let start = self.beats.load(SeqCst);
        waits_for(clock, &self.beats, start.saturating_add(self.more))
    }
}

/// A source of a text that gives a byte at a time, and the one at a place only once its gate opens; else it fails.
#[derive(Drop)]
pub(crate) struct Waiting<R: std::rt::Clock + Drop> {
    text: Vec<u8>,
    given: usize,
    stop: usize,
    gate: Gate,
    clock: R,
    faults: u64,
}

impl<R: std::rt::Clock + Drop> Waiting<R> {
    /// A source of a text, which gives the byte at a place only once the gate opens.
    pub(crate) fn new(text: Vec<u8>, stop: usize, gate: Gate, clock: R) -> Waiting<R> {
        Waiting {
            text,
            given: 0,
            stop,
            gate,
            clock,
            faults: 0,
        }
    }
}

impl<R: std::rt::Clock + Drop> Source for Waiting<R> {
    ghost view = { λ s. record { left = None; faults = s.faults } };

    fn read(&mut self, into: &mut [u8]) -> Got {
        if self.given == self.stop && !self.gate.opens(&self.clock) {
            self.faults = self.faults.saturating_add(1);
            return Got::Failed;
        }
        match self.text.get(self.given) {
            None => Got::End,
            Some(&byte) => {
                into[0] = byte;
                self.given += 1;
                Got::Bytes(1)
            }
        }
    }
}

/// A sink that keeps what it took, and counts its lines.
#[derive(Drop)]
pub(crate) struct Counting {
    pub lines: Arc<AtomicU64>,
    pub text: Vec<u8>,
    faults: u64,
}

impl Counting {
    /// A sink that took nothing, and counts its lines here.
    pub(crate) fn new(alloc: Global, lines: Arc<AtomicU64>) -> Counting {
        Counting {
            lines,
            text: Vec::new(alloc),
            faults: 0,
        }
    }
}

impl Sink for Counting {
    ghost view = { λ s. record { held = None; faults = s.faults } };

    fn write(&mut self, piece: &[u8]) -> Put {
        if self.text.extend_from_slice(piece).is_err() {
            self.faults = self.faults.saturating_add(1);
            return Put::Failed;
        }
        for byte in piece {
            if *byte == b'\n' {
                self.lines.fetch_add(1, SeqCst);
            }
        }
        Put::Took(piece.len())
    }
}

/// A clock that stands still.
#[derive(Drop)]
pub(crate) struct Still {
    pub moment: Moment,
}

impl Clock for Still {
    ghost coming = { λ _. None };

    fn now(&mut self) -> Moment {
        self.moment
    }
}

/// A beat each millisecond, which counts how often it was asked.
#[derive(Drop)]
pub(crate) struct Asked<R: std::rt::Clock + Drop> {
    pub count: Arc<AtomicU64>,
    pub clock: R,
}

impl<R: std::rt::Clock + Drop> Beat for Asked<R> {
    ghost coming = { λ _. None };

    fn beat(&mut self) -> bool {
        self.count.fetch_add(1, SeqCst);
        thread::sleep(&self.clock, Duration::from_millis(1));
        true
    }
}

/// A beat that counts how often it was asked, and sleeps for an hour unless it is woken.
#[derive(Drop)]
pub(crate) struct Asleep<R: Wait + Drop> {
    pub count: Arc<AtomicU64>,
    pub waker: Waker,
    pub rt: R,
}

impl<R: Wait + Drop> Beat for Asleep<R> {
    ghost coming = { λ _. None };

    fn beat(&mut self) -> bool {
        self.count.fetch_add(1, SeqCst);
        self.waker.sleep(&self.rt, Duration::from_secs(3_600));
        true
    }
}

/// A disk one of whose syncs waits until a sink took so many lines, and reports before that it is there.
#[derive(Drop)]
pub(crate) struct Held<R: std::rt::Clock + Drop, D: Disk + Drop> {
    pub disk: D,
    pub syncs: u64,
    pub stop: u64,
    pub there: Arc<AtomicU64>,
    pub lines: Arc<AtomicU64>,
    pub least: u64,
    /// Whether the lines came while it waited.
    pub in_time: bool,
    pub clock: R,
}

impl<R: std::rt::Clock + Drop, D: Disk + Drop> Disk for Held<R, D> {
    ghost view = { λ h. D.view h.disk };

    fn len(&mut self) -> DiskLen {
        self.disk.len()
    }

    fn read_at(&mut self, at: u64, into: &mut [u8]) -> DiskRead {
        self.disk.read_at(at, into)
    }

    fn write_at(&mut self, at: u64, piece: &[u8]) -> DiskDone {
        self.disk.write_at(at, piece)
    }

    fn sync(&mut self) -> DiskDone {
        self.syncs = self.syncs.saturating_add(1);
        if self.syncs == self.stop {
            self.there.fetch_add(1, SeqCst);
            self.in_time = waits_for(&self.clock, &self.lines, self.least);
        }
        self.disk.sync()
    }
}
