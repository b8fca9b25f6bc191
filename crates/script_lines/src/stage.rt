//! What the ends of the next sessions are made of. The reads and writes that fail are counted from 1.

use crate::fault::Fault;
use crate::words::{bytes_of, flag, number};
use cfg_base::{Bytes, Moment};
use std::alloc::Global;
use std::mem;

/// What the end of one session is made of.
#[derive(Drop)]
pub struct Part {
    /// What is read: no read takes bytes of two pieces.
    pub pieces: Vec<Bytes>,
    pub failing_reads: Vec<u64>,
    pub room: u64,
    pub failing_writes: Vec<u64>,
    pub clock: Vec<Moment>,
}

/// What the next call of ends takes.
#[derive(Drop)]
pub struct Stage {
    /// The ends that are whole.
    ahead: Vec<Part>,
    /// The end that the lines speak of.
    part: Part,
    beats: Vec<bool>,
}

/// The room of a sink for which the script says none.
const ROOM: u64 = 65_536;

impl Part {
    fn new(alloc: Global) -> Part {
        Part {
            pieces: Vec::new(alloc),
            failing_reads: Vec::new(alloc),
            room: ROOM,
            failing_writes: Vec::new(alloc),
            clock: Vec::new(alloc),
        }
    }
}

impl Stage {
    /// One with nothing on it.
    pub fn new(alloc: Global) -> Stage {
        Stage {
            ahead: Vec::new(alloc),
            part: Part::new(alloc),
            beats: Vec::new(alloc),
        }
    }

    /// The end so far is whole; what follows makes the next one.
    fn next_end(&mut self, alloc: Global) -> Result<(), Fault> {
        let part = mem::replace(&mut self.part, Part::new(alloc));
        self.ahead.push(part)?;
        Ok(())
    }

    /// What all ends are made of, in order.
    pub fn into_parts(self) -> Result<Vec<Part>, Fault> {
        let Stage {
            mut ahead,
            part,
            beats: _,
        } = self;
        ahead.push(part)?;
        Ok(ahead)
    }

    /// What the last end is made of.
    pub fn into_last(self) -> Part {
        self.part
    }

    /// The answers of the beat.
    pub fn into_beats(self) -> Vec<bool> {
        self.beats
    }

    /// One more piece of the input.
    fn add_piece(&mut self, bytes: Vec<u8>) -> Result<(), Fault> {
        self.part.pieces.push(Bytes::from(bytes))?;
        Ok(())
    }

    /// One more line of the input, as a piece of its own.
    fn add_line(&mut self, mut bytes: Vec<u8>) -> Result<(), Fault> {
        bytes.push(b'\n')?;
        self.add_piece(bytes)
    }

    /// Takes a line of numbers or flags, and reports whether it is one.
    fn keep_words(&mut self, alloc: Global, name: &str, rest: &str) -> Result<bool, Fault> {
        match name {
            "reads-fail" => self.part.failing_reads = numbers_in(alloc, rest)?,
            "writes-fail" => self.part.failing_writes = numbers_in(alloc, rest)?,
            "room" => self.part.room = number(rest.as_bytes())?,
            "clock" => self.part.clock = moments_in(alloc, rest)?,
            "beats" => self.beats = flags_in(alloc, rest)?,
            _ => return Ok(false),
        }
        Ok(true)
    }

    /// Takes a line that says what the ends are, and reports whether it is one.
    pub fn keep(&mut self, alloc: Global, name: &str, rest: &str) -> Result<bool, Fault> {
        match name {
            "line" => self.add_line(bytes_of(alloc, rest)?)?,
            "piece" => self.add_piece(bytes_of(alloc, rest)?)?,
            "next-end" => self.next_end(alloc)?,
            _ => return self.keep_words(alloc, name, rest),
        }
        Ok(true)
    }

    /// What is on the stage, in whose place stands nothing.
    pub fn take(&mut self, alloc: Global) -> Stage {
        mem::replace(self, Stage::new(alloc))
    }
}

fn numbers_in(alloc: Global, text: &str) -> Result<Vec<u64>, Fault> {
    let mut numbers = Vec::new(alloc);
    for word in text.split(' ') {
        if !word.is_empty() {
            numbers.push(number(word.as_bytes())?)?;
        }
    }
    Ok(numbers)
}

fn moments_in(alloc: Global, text: &str) -> Result<Vec<Moment>, Fault> {
    let mut moments = Vec::new(alloc);
    for word in text.split(' ') {
        if !word.is_empty() {
            moments.push(Moment::of(number(word.as_bytes())?))?;
        }
    }
    Ok(moments)
}

fn flags_in(alloc: Global, text: &str) -> Result<Vec<bool>, Fault> {
    let mut flags = Vec::new(alloc);
    for word in text.split(' ') {
        if !word.is_empty() {
            flags.push(flag(word.as_bytes())?)?;
        }
    }
    Ok(flags)
}
