//! Runs of the service, over the ends and the ticker that the stage makes and the script's disks.

ghost use Rattle.std.specs.Prelude.{◌≡◌, IfOk};
ghost use Rattle.session_threads.specs.Results.{users_of_ends};
ghost use Rattle.service.specs.Run.{AreEnds};

use crate::disks::{Disks, Hurt};
use crate::histories::say_happened;
use cfg_base::{NoMemory, UserName, Words};
use command_line::{Usage, read_words, words_ask_one_thing};
use disk_model::MemDisk;
use io_edge::{ListBeat, ListClock, ListSource, VecSink};
use script_lines::{
    Fault, Part, Stage, Text, args_of, first_and_rest, number, say, say_bytes, say_counted,
    say_text, words_of,
};
use service::{Closed, StartWhy0, Ticker, run_keeping};
use session_shell::End;
use std::alloc::Global;
use std::sync::Wait;
use std::thread::Threads;
use std::vec::IntoIter;
use stored_ledger::StartWhy;

type StagedEnd = End<ListSource, VecSink, ListClock>;

type Ran = Closed<ListSource, VecSink, ListClock, ListBeat, MemDisk>;

/// A session's end.
fn end_of(alloc: Global, user: UserName, part: Part) -> Result<StagedEnd, Fault>
    ensures { IfOk result (λ end. end.user ≡ user) }
{
    Ok(End {
        user,
        source: ListSource::new(part.pieces, part.failing_reads),
        sink: VecSink::new(alloc, part.room, part.failing_writes)?,
        clock: ListClock::new(part.clock),
    })
}

/// An end for each user, in order.
fn ends_of(
    alloc: Global,
    users: &[UserName],
    parts: &mut IntoIter<Part>,
) -> Result<Vec<StagedEnd>, Fault>
    ensures { IfOk result (λ ends. users_of_ends ends.items ≡ users.now) }
{
    let mut ends = Vec::new(alloc);
    for user in users {
        let Some(part) = parts.next() else {
            return Err(Fault::Script("an end for each user"));
        };
        ends.push(end_of(alloc, user.clone()?, part)?)?;
    }
    Ok(ends)
}

/// The ends that the words ask for. Words that are refused ask for none, and are given one.
fn asked_ends(
    alloc: Global,
    words: &Words,
    parts: &mut IntoIter<Part>,
) -> Result<Vec<StagedEnd>, Fault>
    ensures { IfOk result (λ ends. AreEnds words.now ends.items) }
{
    words_ask_one_thing();
    match read_words(alloc, words) {
        Ok(asked) => ends_of(alloc, asked.users.as_slice(), parts),
        Err(Usage::Refused) => ends_of(alloc, &[UserName::root(alloc)?], parts),
        Err(Usage::NoMemory) => Err(Fault::NoMemory),
    }
}

/// The ticker of the end after those of the sessions: a look is due for each answer of its clock. Without such an end
/// none is.
fn ticker_of(alloc: Global, part: Option<Part>) -> Result<Ticker<ListBeat, ListClock>, Fault> {
    let mut beats = Vec::new(alloc);
    let Some(part) = part else {
        return Ok(Ticker {
            beat: ListBeat::new(beats),
            clock: ListClock::new(Vec::new(alloc)),
            waker: None,
        });
    };
    for _ in 0..part.clock.len() {
        beats.push(true)?;
    }
    Ok(Ticker {
        beat: ListBeat::new(beats),
        clock: ListClock::new(part.clock),
        waker: None,
    })
}

/// What the words ask, over these ends. Disks without room replace the script's disks.
fn ran_over<R: Threads + Wait + Sync>(
    rt: &R,
    alloc: Global,
    words: &Words,
    ends: Vec<StagedEnd>,
    ticker: Ticker<ListBeat, ListClock>,
    disks: &mut Disks,
) -> Result<Ran, Fault>
    requires { AreEnds words.now ends.items }
{
    match disks.take(alloc) {
        Ok((a, b)) => Ok(run_keeping(rt, alloc, words, ends, ticker, a, b, true)),
        Err(NoMemory) => Err(Fault::NoMemory),
    }
}

/// What the words ask, over the ends that are made of these parts.
fn ran_of<R: Threads + Wait + Sync>(
    rt: &R,
    alloc: Global,
    words: &Words,
    parts: &mut IntoIter<Part>,
    disks: &mut Disks,
) -> Result<Ran, Fault> {
    let ends = asked_ends(alloc, words, parts)?;
    match ticker_of(alloc, parts.next()) {
        Ok(ticker) => ran_over(rt, alloc, words, ends, ticker, disks),
        Err(fault) => Err(fault),
    }
}

/// What the words of a text ask, over what is on the stage.
fn ran<R: Threads + Wait + Sync>(
    rt: &R,
    alloc: Global,
    stage: Stage,
    disks: &mut Disks,
    text: &str,
) -> Result<Ran, Fault> {
    let args = args_of(alloc, text)?;
    let words = words_of(alloc, &args)?;
    let mut parts = stage.into_parts()?.into_iter();
    ran_of(rt, alloc, &words, &mut parts, disks)
}

/// The number of a session, where there are several.
pub(crate) fn say_session(out: &mut Text, count: usize, place: usize) {
    if count > 1 {
        say_counted(out, "session", place.saturating_add(1) as u64);
    }
}

/// Why a start was refused.
fn say_cause(out: &mut Text, why: &StartWhy) {
    match why {
        StartWhy::Exists => say(out, "why exists"),
        StartWhy::NotAJournal => say(out, "why not a journal"),
        StartWhy::Damaged { offset, .. } => say_counted(out, "why damaged at", *offset),
        StartWhy::BadRecord { offset } => say_counted(out, "why bad record at", *offset),
        StartWhy::DiskFault => say(out, "why disk fault"),
        StartWhy::NoMemory => say(out, "why no memory"),
    }
}

/// The digests of a damaged record.
fn say_digests(out: &mut Text, why: &StartWhy) {
    if let StartWhy::Damaged { kept, computed, .. } = why {
        say_bytes(out, "kept", kept);
        say_bytes(out, "computed", computed);
    }
}

/// The status, and why the start was refused, if it was.
fn say_status(out: &mut Text, ran: &Ran, digests: bool) {
    say_counted(out, "status", u64::from(ran.status));
    if let StartWhy0::Why(why) = &ran.why {
        say_cause(out, why);
        if digests {
            say_digests(out, why);
        }
    }
}

/// What was written.
fn say_written(out: &mut Text, ran: &Ran) {
    for (place, end) in ran.ends.iter().enumerate() {
        say_session(out, ran.ends.len(), place);
        say_text(out, end.sink.contents());
    }
}

/// How many bytes a disk has that is made for a new journal.
const ROOM: u64 = 1 << 22;

/// fresh: two disks with a new journal
pub(crate) fn make_fresh<R: Threads + Wait + Sync>(
    rt: &R,
    alloc: Global,
    disks: &mut Disks,
) -> Result<(), Fault> {
    disks.make(alloc, ROOM, ROOM)?;
    let ran = ran(rt, alloc, Stage::new(alloc), disks, "init d")?;
    let made = ran.status == 0;
    let Closed { disk_a, disk_b, .. } = ran;
    disks.put(disk_a, disk_b);
    if made {
        Ok(())
    } else {
        Err(Fault::Script("no call fails of a disk on which a journal is made"))
    }
}

/// run WORDS..: the status, what was written, the turns and the history; or run_output WORDS..: the status and what was written.
/// The disks come back.
pub(crate) fn ask_run<R: Threads + Wait + Sync>(
    rt: &R,
    alloc: Global,
    stage: &mut Stage,
    disks: &mut Disks,
    whole: bool,
    text: &str,
    out: &mut Text,
) -> Result<(), Fault> {
    let ran = ran(rt, alloc, stage.take(alloc), disks, text)?;
    say_status(out, &ran, true);
    say_written(out, &ran);
    if whole {
        say_happened(out, &ran.turns, &ran.history);
    }
    let Closed { disk_a, disk_b, .. } = ran;
    disks.put(disk_a, disk_b);
    Ok(())
}

/// How a copy is hurt, and the words after that.
fn hurt_of<'a>(name: &str, text: &'a str) -> Result<(Hurt, &'a str), Fault> {
    let (place, rest) = first_and_rest(text);
    let place = number(place.as_bytes())?;
    match name {
        "run_cut" => Ok((Hurt::Cut(place), rest)),
        "run_more" => Ok((Hurt::More(place), rest)),
        _ => {
            let (byte, rest) = first_and_rest(rest);
            match u8::try_from(number(byte.as_bytes())?) {
                Ok(byte) => Ok((Hurt::Byte(place, byte), rest)),
                Err(_) => Err(Fault::Script("a byte from 0 to 255")),
            }
        }
    }
}

/// A run over copies of the disks: the status, the cause, and what was written.
fn say_copies<R: Threads + Wait + Sync>(
    rt: &R,
    alloc: Global,
    stage: &mut Stage,
    copies: &mut Disks,
    text: &str,
    out: &mut Text,
) -> Result<(), Fault> {
    let ran = ran(rt, alloc, stage.take(alloc), copies, text)?;
    say_status(out, &ran, false);
    say_written(out, &ran);
    let Closed { disk_a, disk_b, .. } = ran;
    copies.put(disk_a, disk_b);
    Ok(())
}

/// run_cut a|b LENGTH WORDS.., run_byte a|b PLACE BYTE WORDS.. or run_more a|b PLACE WORDS..: a run over copies of the disks, of
/// which that one is hurt. The disks stay as they are.
pub(crate) fn ask_hurt<R: Threads + Wait + Sync>(
    rt: &R,
    alloc: Global,
    stage: &mut Stage,
    disks: &Disks,
    name: &str,
    text: &str,
    out: &mut Text,
) -> Result<(), Fault> {
    let (which, text) = first_and_rest(text);
    let (hurt, text) = hurt_of(name, text)?;
    match disks.hurt(alloc, which.as_bytes(), hurt) {
        Ok(mut copies) => say_copies(rt, alloc, stage, &mut copies, text, out),
        Err(fault) => Err(fault),
    }
}
