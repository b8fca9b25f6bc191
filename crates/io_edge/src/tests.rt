use super::*;
use cfg_base::{MOMENT_MAX, Moment};
use std::cell::Cell;
use std::io;
use std::io::{ErrorKind, Read, Write};
use std::time::Duration;

/// A reader and writer that is interrupted, then gives or takes a little, then nothing, then fails.
#[derive(Drop)]
struct Unsteady {
    turn: u8,
    flushes: u8,
}

impl Unsteady {
    fn new() -> Unsteady {
        Unsteady {
            turn: 0,
            flushes: 0,
        }
    }

    /// How many bytes this turn gives or takes.
    fn step(&mut self) -> io::Result<usize> {
        self.turn = self.turn.saturating_add(1);
        match self.turn {
            1 => Err(io::Error::from(ErrorKind::Interrupted)),
            2 => Ok(2),
            3 => Ok(0),
            _ => Err(io::Error::from(ErrorKind::Other)),
        }
    }
}

impl Read for Unsteady {
    fn read(&mut self, buf: &mut [u8]) -> io::Result<usize> {
        let count = self.step()?.min(buf.len());
        for byte in buf.iter_mut() {
            *byte = b'x';
        }
        Ok(count)
    }
}

impl Write for Unsteady {
    fn write(&mut self, buf: &[u8]) -> io::Result<usize> {
        Ok(self.step()?.min(buf.len()))
    }

    fn flush(&mut self) -> io::Result<()> {
        self.flushes = self.flushes.saturating_add(1);
        match self.flushes {
            1 => Err(io::Error::from(ErrorKind::Interrupted)),
            2 => Ok(()),
            _ => Err(io::Error::from(ErrorKind::Other)),
        }
    }
}

#[test]
fn source_over_a_reader_passes_over_interruptions(rt: HostRuntime) {
    let mut source = StdSource::new(Unsteady::new());
    let mut into = [0; 3];
    assert_eq!(rt; source.read(&mut into), Got::Bytes(2));
    assert_eq!(rt; into[0], b'x');
    assert_eq!(rt; source.read(&mut into), Got::End);
    assert_eq!(rt; source.read(&mut into), Got::Failed);
}

#[test]
fn sink_over_a_writer_fails_where_nothing_is_taken_or_flushed(rt: HostRuntime) {
    let mut sink = StdSink::new(Unsteady::new());
    assert_eq!(rt; sink.write(b"abc"), Put::Took(2));
    assert_eq!(rt; sink.write(b"abc"), Put::Failed);
    assert_eq!(rt; sink.write(b"abc"), Put::Failed);
    let mut sink = StdSink::new(Unsteady {
        turn: 1,
        flushes: 2,
    });
    assert_eq!(rt; sink.write(b"abc"), Put::Failed);
}

/// A clock: unread, at 7, unread, before 1970, past the last moment, unread.
#[derive(Drop)]
struct UnsteadyClock {
    turn: Cell<u8>,
}

impl std::rt::Clock for UnsteadyClock {
    fn monotonic(&self) -> io::Result<Duration> {
        Err(io::Error::from(ErrorKind::Other))
    }

    fn since_1970(&self) -> io::Result<Duration> {
        let turn = self.turn.get().saturating_add(1);
        self.turn.set(turn);
        match turn {
            2 => Ok(Duration::from_secs(7)),
            4 => Err(io::Error::from(ErrorKind::InvalidData)),
            5 => Ok(Duration::from_secs(u64::MAX)),
            _ => Err(io::Error::from(ErrorKind::Other)),
        }
    }
}

#[test]
fn clock_over_the_system_repeats_its_last_answer(rt: HostRuntime) {
    let mut clock = StdClock::new(UnsteadyClock { turn: Cell::new(0) });
    for seconds in [0, 7, 7, 0, MOMENT_MAX, MOMENT_MAX] {
        assert_eq!(rt; clock.now(), Moment::of(seconds));
    }
    let mut beat = SleepBeat::new(UnsteadyClock { turn: Cell::new(0) });
    assert!(rt; beat.beat());
}
