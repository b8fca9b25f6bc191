//! Ends over the system. They tell nothing of content: that the system behaves so isn't proved.

ghost use Rattle.std.specs.Prelude.{◌≡◌, ◌≤◌, length, None};
ghost use Rattle.io_edge.specs.Calls.{next_count};

use crate::ends::{Beat, Clock, Got, Put, Sink, Source};
use cfg_base::Moment;
use std::io::{ErrorKind, Read, Write};
use std::thread;
use std::time::Duration;

/// A source over a reader.
#[derive(Debug, Drop)]
pub struct StdSource<R: Read + Drop> {
    reader: R,
    faults: u64,
}

impl<R: Read + Drop> StdSource<R> {
    /// A source of what the reader gives.
    pub fn new(reader: R) -> StdSource<R>
        ensures { ⟦<StdSource<R> as Source>⟧.view result ≡ record { left = None; faults = 0 } }
    {
        StdSource { reader, faults: 0 }
    }
}

impl<R: Read + Drop> Source for StdSource<R> {
    ghost view = { λ s. record { left = None; faults = s.faults } };

    fn read(&mut self, into: &mut [u8]) -> Got {
        for _ in 0..u64::MAX {
            match self.reader.read(into) {
                Ok(0) => return Got::End,
                Ok(count) => return Got::Bytes(count),
                Err(error) => {
                    if error.kind() != ErrorKind::Interrupted {
                        break;
                    }
                }
            }
        }
        self.faults = self.faults.saturating_add(1);
        Got::Failed
    }
}

/// A sink over a writer. Each write is flushed, so that it is seen at once.
#[derive(Debug, Drop)]
pub struct StdSink<W: Write + Drop> {
    writer: W,
    faults: u64,
}

impl<W: Write + Drop> StdSink<W> {
    /// A sink into the writer.
    pub fn new(writer: W) -> StdSink<W>
        ensures { ⟦<StdSink<W> as Sink>⟧.view result ≡ record { held = None; faults = 0 } }
    {
        StdSink { writer, faults: 0 }
    }

    /// Writes some of the bytes: how many, and 0 where that fails.
    fn write_some(&mut self, piece: &[u8]) -> usize
        ensures count { result ≤ length piece.now }
        ensures faults { self.new.faults ≡ self.old.faults }
    {
        for _ in 0..u64::MAX {
            match self.writer.write(piece) {
                Ok(count) => return count,
                Err(error) => {
                    if error.kind() != ErrorKind::Interrupted {
                        break;
                    }
                }
            }
        }
        0
    }

    /// Flushes what was written, and reports whether that succeeds.
    fn flush(&mut self) -> bool
        ensures { self.new.faults ≡ self.old.faults }
    {
        for _ in 0..u64::MAX {
            match self.writer.flush() {
                Ok(()) => return true,
                Err(error) => {
                    if error.kind() != ErrorKind::Interrupted {
                        break;
                    }
                }
            }
        }
        false
    }
}

impl<W: Write + Drop> Sink for StdSink<W> {
    ghost view = { λ s. record { held = None; faults = s.faults } };

    fn write(&mut self, piece: &[u8]) -> Put {
        let count = self.write_some(piece);
        if count > 0 && self.flush() {
            return Put::Took(count);
        }
        self.faults = self.faults.saturating_add(1);
        Put::Failed
    }
}

/// A clock over the system's. Where that can't be read it repeats its last answer, at first 0.
#[derive(Debug, Drop)]
pub struct StdClock<R: std::rt::Clock + Drop> {
    clock: R,
    last: Moment,
}

impl<R: std::rt::Clock + Drop> StdClock<R> {
    /// A clock that asks this one.
    pub fn new(clock: R) -> StdClock<R>
        ensures { ⟦<StdClock<R> as Clock>⟧.coming result ≡ None }
    {
        StdClock {
            clock,
            last: Moment::of(0),
        }
    }
}

impl<R: std::rt::Clock + Drop> Clock for StdClock<R> {
    ghost coming = { λ _. None };

    fn now(&mut self) -> Moment {
        match self.clock.since_1970() {
            Ok(time) => self.last = Moment::of(time.as_secs()),
            Err(error) => {
                // The system's clock stands before 1970.
                if error.kind() == ErrorKind::InvalidData {
                    self.last = Moment::of(0);
                }
            }
        }
        self.last
    }
}

/// A beat once a second.
#[derive(Debug, Drop)]
pub struct SleepBeat<R: std::rt::Clock + Drop> {
    clock: R,
}

impl<R: std::rt::Clock + Drop> SleepBeat<R> {
    /// A beat that sleeps by this clock.
    pub fn new(clock: R) -> SleepBeat<R>
        ensures { ⟦<SleepBeat<R> as Beat>⟧.coming result ≡ None }
    {
        SleepBeat { clock }
    }
}

impl<R: std::rt::Clock + Drop> Beat for SleepBeat<R> {
    ghost coming = { λ _. None };

    fn beat(&mut self) -> bool {
        thread::sleep(&self.clock, Duration::from_secs(1));
        true
    }
}
