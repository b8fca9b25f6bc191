ghost use Rattle.std.specs.Prelude.{◌≡◌, ◌<◌, ◌≤◌, ℕ, List, ◌-◌, ◌+◌, [], ◌∷◌, min, max};
ghost use Rattle.std.specs.Prelude.{length, take, drop, IfOk, OnErr, Ok, ◌++◌, vec_len};
ghost use Rattle.std.specs.Prelude.{vec_capacity};
ghost use Rattle.cfg_base.specs.Bytes.{without_last_cr};
ghost use Rattle.io_edge.specs.Ends.{onto, IsUsedUp};
ghost use Rattle.cfg_base.specs.Counts.{Rose};
ghost use Rattle.io_edge.specs.Taken.{taken, TakesAtMost};
ghost use Rattle.io_edge.specs.Reader.{IsFilled, IsTakenAs, Takes, GathersTo, end_of, answer_of};
ghost use Rattle.io_edge.specs.declared.lines.TheConstants.{MAX_LINE, KEPT};
ghost use Rattle.io_edge.specs.Line.{GivesLine, Falls, ReadAhead, ended_line, last_line_of};

use crate::ends::{Got, Source};
use cfg_base::{Bytes, Limits, NoMemory};
use std::alloc::Global;
use std::marker::Model;

/// The most bytes that a line has without its LF.
pub const MAX_LINE: usize = 4096;

/// The limit that the clauses of this crate cite, by its number.
pub fn limits_are_stated()
    ensures lines { MAX_LINE ≡ 4096 }
{}

/// How many bytes of a line are kept: as many as it may have, and one that shows that it is too long.
const KEPT: usize = MAX_LINE + 1;

const LF: u8 = b'\n';

const CR: u8 = b'\r';

/// What comes next of an input.
#[derive(Debug, Drop, PartialEq, Eq)]
pub enum Line {
    /// A line without its LF and without a CR before that.
    Text(Bytes),
    /// A line of more than `MAX_LINE` bytes, which is skipped.
    TooLong,
    /// The input has ended.
    End,
    /// The source failed.
    Failed,
    /// The source gave a byte after as many as may be taken.
    InputFull,
}

/// Whether a byte was read ahead.
enum Filled {
    Ready,
    Out,
    Broken,
}

/// Why a line stops.
#[derive(Clone, Copy)]
enum Stop {
    /// Its LF was taken.
    Lf,
    /// Nothing is left.
    End,
    /// Nothing more may be taken.
    Full,
    Failed,
}

/// What resulted from taking a byte.
enum Taken {
    /// A byte of the line.
    Byte(u8),
    Stop(Stop),
}

/// The lines of a source, of which no more bytes are taken than the limit.
#[derive(Debug, Drop)]
pub struct Lines<S: Source> {
    source: S,
    alloc: Global,
    chunk: [u8; 256],
    from: usize,
    to: usize,
    room: u64,
}

impl<S: Source> Model for Lines<S> {
    ghost use Rattle.std.specs.Prelude.{◌≤◌, ◌-◌, max};
    ghost use Rattle.io_edge.specs.Feed.{LinesView, feed_of};

    ghost Value = { LinesView };

    ghost view = { λ l. feed_of l.chunk l.from l.to l.room ((S.view l.source).left) ((S.view l.source).faults) };

    ghost invariant = { λ l. (l.from ≤ l.to) × (l.to ≤ 256) × (l.to - l.from ≤ max l.room 1) };
}

/// Reads up to so many bytes to the front of the chunk.
fn read_front<S: Source>(source: &mut S, chunk: &mut [u8; 256], count: usize) -> Got
    requires { (0 < count) × (count ≤ 256) }
    ensures count { TakesAtMost result count }
    ensures bytes { (S.view source.old).left ≡ onto (taken result chunk.new) ((S.view source.new).left) }
    ensures end { result ≡ Got.End → IsUsedUp ((S.view source.new).left) }
    ensures later { (S.view source.old).faults ≤ (S.view source.new).faults }
    ensures failed { result ≡ Got.Failed → Rose ((S.view source.old).faults) ((S.view source.new).faults) }
{
    let (front, _) = chunk.split_at_mut(count);
    source.read(front)
}

/// How many bytes to ask for: no more than may be taken, but one in any case.
fn ask_size(room: u64) -> usize
    ensures { result ≡ max (min room 256) 1 }
{
    (room.min(256) as usize).max(1)
}

/// Puts a byte after those that are kept, where there is room for it.
fn keep(kept: &mut Vec<u8>, byte: u8)
    requires within { vec_len kept.old ≤ KEPT }
    requires room { KEPT ≤ vec_capacity kept.old }
    ensures items { kept.new.items ≡ take KEPT (kept.old.items ++ byte ∷ []) }
    ensures within { vec_len kept.new ≤ KEPT }
    ensures room { KEPT ≤ vec_capacity kept.new }
{
    if kept.len() < KEPT {
        kept.push_reserved(byte);
    }
}

/// The bytes without the CR at their end, where they have one.
fn without_cr(mut line: Vec<u8>) -> Bytes
    ensures { result ≡ without_last_cr line.items }
{
    if line.last() == Some(&CR) {
        line.truncate(line.len() - 1);
    }
    Bytes::from(line)
}

/// The answer for a line that an LF ends.
fn line_of(line: Vec<u8>) -> Line
    ensures { result ≡ ended_line line.items }
{
    if line.len() > MAX_LINE {
        Line::TooLong
    } else {
        Line::Text(without_cr(line))
    }
}

/// The answer for a line that the end of the input ends.
fn last_line_of(line: Vec<u8>) -> Line
    ensures { result ≡ last_line_of line.items }
{
    if line.len() > MAX_LINE {
        Line::TooLong
    } else {
        Line::Text(Bytes::from(line))
    }
}

/// The answer at the end of the input, after these bytes.
fn end_of(line: Vec<u8>) -> Line
    ensures { result ≡ end_of line.items }
{
    if line.is_empty() {
        Line::End
    } else {
        last_line_of(line)
    }
}

/// The answer for the bytes of a line up to its stop.
fn answer_of(stop: Stop, line: Vec<u8>) -> Line
    ensures { result ≡ answer_of stop line.items }
{
    match stop {
        Stop::Lf => line_of(line),
        Stop::End => end_of(line),
        Stop::Full => Line::InputFull,
        Stop::Failed => Line::Failed,
    }
}

/// What a byte is that was taken: one of the line, or its LF.
fn taken_as(byte: u8) -> Taken
    ensures { IsTakenAs result byte }
{
    if byte == LF {
        Taken::Stop(Stop::Lf)
    } else {
        Taken::Byte(byte)
    }
}

impl<S: Source> Lines<S> {
    /// The lines of a source, of which at most `limits.input` bytes are taken.
    pub fn new(alloc: Global, source: S, limits: Limits) -> Lines<S>
        ensures left { result.left ≡ (S.view source).left }
        ensures room { result.room ≡ limits.input }
        ensures ahead { result.ahead ≡ 0 }
        ensures faults { result.faults ≡ (S.view source).faults }
    {
        Lines {
            source,
            alloc,
            chunk: [0; 256],
            from: 0,
            to: 0,
            room: limits.input,
        }
    }

    /// The source. What was read ahead is gone.
    pub fn into_source(self) -> S
        ensures left { (held : List ℕ) × (length held ≡ self.ahead) × (self.left ≡ onto held ((S.view result).left)) }
        ensures faults { (S.view result).faults ≡ self.faults }
    {
        self.source
    }

    /// The next line, or why there is none.
    pub fn next(&mut self) -> Result<Line, NoMemory>
        ensures line { IfOk result (λ line. GivesLine line self.old.left self.old.room self.new.left self.new.room) }
        ensures err { OnErr result (self.new ≡ self.old) }
        ensures ahead { IfOk result (λ line. ReadAhead line self.new) }
        ensures falls { IfOk result (λ line. Falls line self.old.room self.new.room) }
        ensures later { self.old.faults ≤ self.new.faults }
        // A source that failed left nothing that was read and not yet taken.
        ensures failed { result ≡ Ok Line.Failed → Rose self.old.faults self.new.faults × (self.new.ahead ≡ 0) }
    {
        let mut kept = Vec::with_capacity(self.alloc, KEPT)?;
        let stop = self.gather(&mut kept);
        Ok(answer_of(stop, kept))
    }

    /// Takes the bytes of a line up to its stop, and keeps as many as a line may have and one more.
    fn gather(&mut self, kept: &mut Vec<u8>) -> Stop
        requires empty { kept.old.items ≡ [] }
        requires room { KEPT ≤ vec_capacity kept.old }
        ensures { GathersTo result kept.new.items self.old self.new }
    {
        'bytes: loop {
            match self.take_byte() {
                Taken::Byte(byte) => keep(kept, byte),
                Taken::Stop(stop) => return stop,
            }
        }
    }

    /// Takes the next byte.
    fn take_byte(&mut self) -> Taken
        ensures takes { Takes result self.old self.new }
        ensures later { self.old.faults ≤ self.new.faults }
    {
        match self.fill() {
            Filled::Ready => self.take_ahead(),
            Filled::Out => Taken::Stop(Stop::End),
            Filled::Broken => Taken::Stop(Stop::Failed),
        }
    }

    /// Takes the byte ahead, where one may still be taken.
    fn take_ahead(&mut self) -> Taken
        requires { 0 < self.old.ahead }
        ensures takes { Takes result self.old self.new }
        ensures same { self.new.faults ≡ self.old.faults }
    {
        if self.room == 0 {
            return Taken::Stop(Stop::Full);
        }
        let byte = self.chunk[self.from];
        self.from += 1;
        self.room -= 1;
        taken_as(byte)
    }

    /// Reads ahead where no byte is ahead.
    fn fill(&mut self) -> Filled
        ensures left { self.new.left ≡ self.old.left }
        ensures room { self.new.room ≡ self.old.room }
        ensures later { self.old.faults ≤ self.new.faults }
        ensures filled { IsFilled result self.old self.new }
    {
        if self.from < self.to {
            return Filled::Ready;
        }
        match read_front(&mut self.source, &mut self.chunk, ask_size(self.room)) {
            Got::Bytes(count) => {
                self.from = 0;
                self.to = count;
                Filled::Ready
            }
            Got::End => Filled::Out,
            Got::Failed => Filled::Broken,
        }
    }
}
