//! Calls of the ends in memory that the stage makes: a session's lines, its sink, its clock and its beat.

use cfg_base::{Bytes, Limits, NoMemory};
use io_edge::{
    Beat, Clock, Got, Line, Lines, ListBeat, ListClock, ListSource, Put, Sink, Source, StdSource,
    VecSink, put_all,
};
use script_lines::{Arg, Fault, Part, Stage, Text, number, say, say_bytes, say_flag, say_number};
use std::alloc::Global;

fn say_line(out: &mut Text, line: &Line) {
    match line {
        Line::Text(bytes) => say_bytes(out, "line", bytes.as_slice()),
        Line::TooLong => say(out, "too long"),
        Line::End => say(out, "end"),
        Line::Failed => say(out, "failed"),
        Line::InputFull => say(out, "input full"),
    }
}

fn say_next<S: Source>(lines: &mut Lines<S>, out: &mut Text) {
    match lines.next() {
        Ok(line) => say_line(out, &line),
        Err(NoMemory) => out.lacks_memory(),
    }
}

/// The next lines of a source, so many, of which so many bytes may be taken; and the source after them.
fn say_lines<S: Source + Drop>(
    alloc: Global,
    source: S,
    count: u64,
    input: u64,
    out: &mut Text,
) -> S {
    let mut lines = Lines::new(alloc, source, Limits { input, journal: 0 });
    for _ in 0..count {
        say_next(&mut lines, out);
    }
    lines.into_source()
}

/// What one more read of a source gives, of four bytes at most.
fn say_read<S: Source>(source: &mut S, out: &mut Text) {
    let mut into = [0; 4];
    match source.read(&mut into) {
        Got::Bytes(count) => say_bytes(out, "read", into.get(..count).unwrap_or(&[])),
        Got::End => say(out, "read to the end"),
        Got::Failed => say(out, "read failed"),
    }
}

fn source_of(part: Part) -> ListSource {
    ListSource::new(part.pieces, part.failing_reads)
}

fn sink_of(alloc: Global, part: Part) -> Result<VecSink, NoMemory> {
    VecSink::new(alloc, part.room, part.failing_writes)
}

/// lines COUNT LIMIT: of the pieces, and what one more read gives
fn ask_lines(alloc: Global, part: Part, args: &[Arg], out: &mut Text) -> Result<(), Fault> {
    let [count, limit] = args else {
        return Err(Fault::Script("lines COUNT LIMIT"));
    };
    let count = number(count)?;
    let limit = number(limit)?;
    let mut source = say_lines(alloc, source_of(part), count, limit, out);
    say_read(&mut source, out);
    Ok(())
}

/// All that is read, in one piece.
fn joined(alloc: Global, pieces: &[Bytes]) -> Result<Vec<u8>, Fault> {
    let mut bytes = Vec::new(alloc);
    for piece in pieces {
        bytes.extend_from_slice(piece.as_slice())?;
    }
    Ok(bytes)
}

/// reader_lines COUNT LIMIT: of a reader that gives the pieces one after the other
fn ask_reader_lines(
    alloc: Global,
    pieces: &[Bytes],
    args: &[Arg],
    out: &mut Text,
) -> Result<(), Fault> {
    let [count, limit] = args else {
        return Err(Fault::Script("reader_lines COUNT LIMIT"));
    };
    let count = number(count)?;
    let limit = number(limit)?;
    let bytes = joined(alloc, pieces)?;
    say_lines(alloc, StdSource::new(bytes.as_slice()), count, limit, out);
    Ok(())
}

/// put_all BYTES ..: each as a whole, into a sink of the stage's room
fn ask_put_all(sink: &mut VecSink, args: &[Arg], out: &mut Text) {
    for bytes in args {
        match put_all(sink, bytes) {
            Ok(()) => say(out, "done"),
            Err(_) => say(out, "failed"),
        }
    }
    say_bytes(out, "held", sink.contents());
}

/// write BYTES ..: each with one write, into a sink of the stage's room
fn ask_write(sink: &mut VecSink, args: &[Arg], out: &mut Text) -> Result<(), Fault> {
    for bytes in args {
        if bytes.is_empty() {
            return Err(Fault::Script("a write is of one byte at least"));
        }
        match sink.write(bytes) {
            Put::Took(count) => say_number(out, count as u64),
            Put::Failed => say(out, "failed"),
        }
    }
    say_bytes(out, "held", sink.contents());
    Ok(())
}

fn count_of(args: &[Arg]) -> Result<u64, Fault> {
    match args {
        [count] => number(count),
        _ => Err(Fault::Script("one number: how often")),
    }
}

/// now COUNT: so many answers of the stage's clock
fn ask_now(clock: &mut ListClock, args: &[Arg], out: &mut Text) -> Result<(), Fault> {
    let count = count_of(args)?;
    for _ in 0..count {
        say_number(out, clock.now().seconds());
    }
    Ok(())
}

/// beat COUNT: so many answers of the stage's beat
fn ask_beat(beat: &mut ListBeat, args: &[Arg], out: &mut Text) -> Result<(), Fault> {
    let count = count_of(args)?;
    for _ in 0..count {
        say_flag(out, beat.beat());
    }
    Ok(())
}

/// put_all and write: into a sink that the stage makes
fn ask_sink(
    alloc: Global,
    part: Part,
    call: &str,
    args: &[Arg],
    out: &mut Text,
) -> Result<(), Fault> {
    let mut sink = sink_of(alloc, part)?;
    if call == "write" {
        return ask_write(&mut sink, args, out);
    }
    ask_put_all(&mut sink, args, out);
    Ok(())
}

/// Answers a call of the end that the stage makes.
fn ask_end(
    alloc: Global,
    part: Part,
    call: &str,
    args: &[Arg],
    out: &mut Text,
) -> Result<(), Fault> {
    match call {
        "lines" => ask_lines(alloc, part, args, out),
        "reader_lines" => ask_reader_lines(alloc, &part.pieces, args, out),
        "put_all" | "write" => ask_sink(alloc, part, call, args, out),
        _ => ask_now(&mut ListClock::new(part.clock), args, out),
    }
}

/// Answers a call that takes what is on the stage, where it is one.
pub(crate) fn ask(
    alloc: Global,
    stage: &mut Stage,
    call: &str,
    args: &[Arg],
    out: &mut Text,
) -> Option<Result<(), Fault>> {
    match call {
        "lines" | "reader_lines" | "put_all" | "write" | "now" => {
            Some(ask_end(alloc, stage.take(alloc).into_last(), call, args, out))
        }
        "beat" => {
            let mut beat = ListBeat::new(stage.take(alloc).into_beats());
            Some(ask_beat(&mut beat, args, out))
        }
        _ => None,
    }
}
