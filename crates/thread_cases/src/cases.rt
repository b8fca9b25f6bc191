//! The cases, and what is reported of each.

use crate::edges::{Asked, Asleep, Counting, Gate, Held, Still, Waiting};
use crate::runs::{Part, Ran, made_disks, ran};
use cfg_base::Moment;
use config_core::Event;
use disk_model::MemDisk;
use script_lines::Fault;
use service::{Ticker, Waker};
use session_history::Happened;
use session_shell::{Turn, TurnList};
use std::alloc::Global;
use std::sync::atomic::AtomicU64;
use std::sync::{Arc, Wait};
use std::thread::Threads;

/// A session that commits a host name.
const COMMITS: &[u8] = b"configure\nset system host-name a\ncommit\nexit\n";

/// A session whose source has a text, and gives what is after a place once a gate opens.
fn session<R: std::rt::Clock + Clone + Drop>(
    rt: &R,
    alloc: Global,
    text: &[u8],
    stop: usize,
    gate: Gate,
    lines: Arc<AtomicU64>,
) -> Result<Part<Waiting<R>>, Fault> {
    let text = Vec::from_slice(alloc, text)?;
    let source = Waiting::new(text, stop, gate, rt.clone()?);
    Ok((source, Counting::new(alloc, lines)))
}

/// A ticker that counts its beats, and whose clock answers one moment.
fn ticker<R: std::rt::Clock + Clone + Drop>(
    rt: &R,
    count: Arc<AtomicU64>,
    moment: u64,
) -> Result<Ticker<Asked<R>, Still>, Fault> {
    let moment = Moment::of(moment);
    Ok(Ticker {
        beat: Asked {
            count,
            clock: rt.clone()?,
        },
        clock: Still { moment },
        waker: None,
    })
}

fn count(alloc: Global) -> Result<Arc<AtomicU64>, Fault> {
    Ok(Arc::new(alloc, AtomicU64::new(0))?)
}

/// Two sessions, each of which has its second line only once the other was answered its first.
fn two_wait<R>(rt: &R, alloc: Global) -> Result<Ran<Waiting<R>, Asked<R>, MemDisk>, Fault>
where
    R: Threads + Wait + Sync + Send + std::rt::Clock + Clone + Drop,
{
    let alice = count(alloc)?;
    let bob = count(alloc)?;
    let beats = count(alloc)?;
    let mut parts = Vec::new(alloc);
    for (own, other) in [(&alice, &bob), (&bob, &alice)] {
        let gate = Gate::of_lines(other, 1, &beats)?;
        let text = b"configure\nexit\n";
        parts.push(session(rt, alloc, text, 10, gate, own.clone()?)?)?;
    }
    let ticker = ticker(rt, beats, 1000)?;
    let disks = made_disks(rt, alloc)?;
    ran(rt, alloc, "serve d alice:a bob:b", parts, ticker, disks)
}

/// A session whose commit isn't confirmed, and that has its next line only once the ticker, by whose clock the deadline
/// has come, has looked at the time.
fn one_waits<R>(rt: &R, alloc: Global) -> Result<Ran<Waiting<R>, Asked<R>, MemDisk>, Fault>
where
    R: Threads + Wait + Sync + Send + std::rt::Clock + Clone + Drop,
{
    let lines = count(alloc)?;
    let beats = count(alloc)?;
    let gate = Gate {
        lines: lines.clone()?,
        least: 3,
        beats: beats.clone()?,
        more: 2,
    };
    let text = b"configure\nset system host-name a\ncommit confirmed 1\nexit\n";
    let mut parts = Vec::new(alloc);
    parts.push(session(rt, alloc, text, 52, gate, lines)?)?;
    let ticker = ticker(rt, beats, 1060)?;
    let disks = made_disks(rt, alloc)?;
    ran(rt, alloc, "serve d", parts, ticker, disks)
}

/// A session whose commit isn't confirmed, and that shows the commits once the ticker, by whose clock the deadline has come, has
/// looked at the time; another one is served beside it until that show was answered.
fn two_beside<R>(rt: &R, alloc: Global) -> Result<Ran<Waiting<R>, Asked<R>, MemDisk>, Fault>
where
    R: Threads + Wait + Sync + Send + std::rt::Clock + Clone + Drop,
{
    let alice = count(alloc)?;
    let bob = count(alloc)?;
    let beats = count(alloc)?;
    let mut parts = Vec::new(alloc);
    let shown = Gate::of_lines(&alice, 7, &beats)?;
    parts.push(session(rt, alloc, b"exit\n", 0, shown, bob)?)?;
    let looked = Gate {
        lines: alice.clone()?,
        least: 4,
        beats: beats.clone()?,
        more: 2,
    };
    let text =
        b"configure\nset system host-name a\ncommit confirmed 1 and-quit\nshow system commit\nexit\n";
    parts.push(session(rt, alloc, text, 61, looked, alice)?)?;
    let ticker = ticker(rt, beats, 1060)?;
    let disks = made_disks(rt, alloc)?;
    ran(rt, alloc, "serve d bob:b alice:a", parts, ticker, disks)
}

/// A session that has its second show of what is active once another one was answered its commit, which that one makes once the
/// first show was answered.
fn show_behind<R>(rt: &R, alloc: Global) -> Result<Ran<Waiting<R>, Asked<R>, MemDisk>, Fault>
where
    R: Threads + Wait + Sync + Send + std::rt::Clock + Clone + Drop,
{
    let alice = count(alloc)?;
    let bob = count(alloc)?;
    let beats = count(alloc)?;
    let mut parts = Vec::new(alloc);
    let shown = Gate::of_lines(&bob, 1, &beats)?;
    parts.push(session(rt, alloc, COMMITS, 0, shown, alice.clone()?)?)?;
    let committed = Gate::of_lines(&alice, 2, &beats)?;
    let text = b"show configuration\nshow system commit\nshow configuration\nexit\n";
    parts.push(session(rt, alloc, text, 38, committed, bob)?)?;
    let ticker = ticker(rt, beats, 1000)?;
    let disks = made_disks(rt, alloc)?;
    ran(rt, alloc, "serve d alice:a bob:b", parts, ticker, disks)
}

/// A disk whose sync of that number waits until a sink took a line.
fn held<R: std::rt::Clock + Clone + Drop>(
    rt: &R,
    disk: MemDisk,
    stop: u64,
    there: &Arc<AtomicU64>,
    lines: &Arc<AtomicU64>,
) -> Result<Held<R, MemDisk>, Fault> {
    Ok(Held {
        disk,
        syncs: 0,
        stop,
        there: there.clone()?,
        lines: lines.clone()?,
        least: 1,
        in_time: false,
        clock: rt.clone()?,
    })
}

/// A session that shows what is active while the last sync of another one's commit is under way, which waits for it.
fn shows_within<R>(
    rt: &R,
    alloc: Global,
) -> Result<Ran<Waiting<R>, Asked<R>, Held<R, MemDisk>>, Fault>
where
    R: Threads + Wait + Sync + Send + std::rt::Clock + Clone + Drop,
{
    let alice = count(alloc)?;
    let bob = count(alloc)?;
    let there = count(alloc)?;
    let beats = count(alloc)?;
    let mut parts = Vec::new(alloc);
    let at_once = Gate::of_lines(&alice, 0, &beats)?;
    parts.push(session(rt, alloc, COMMITS, 0, at_once, alice)?)?;
    let within = Gate::of_lines(&there, 1, &beats)?;
    let text = b"show configuration\nshow system commit\nexit\n";
    parts.push(session(rt, alloc, text, 0, within, bob.clone()?)?)?;
    let ticker = ticker(rt, beats, 1000)?;
    let (a, b) = made_disks(rt, alloc)?;
    let disks = (held(rt, a, 3, &there, &bob)?, held(rt, b, 0, &there, &bob)?);
    ran(rt, alloc, "serve d alice:a bob:b", parts, ticker, disks)
}

/// Two sessions that end once the ticker was asked for its first look, before which it sleeps for an hour.
fn ends_asleep<R>(rt: &R, alloc: Global) -> Result<Ran<Waiting<R>, Asleep<R>, MemDisk>, Fault>
where
    R: Threads + Wait + Sync + Send + std::rt::Clock + Clone + Drop,
{
    let beats = count(alloc)?;
    let mut parts = Vec::new(alloc);
    for _ in 0..2 {
        let asked = Gate::of_lines(&beats, 1, &beats)?;
        parts.push(session(rt, alloc, b"exit\n", 0, asked, count(alloc)?)?)?;
    }
    let waker = Waker::new(alloc)?;
    let ticker = Ticker {
        beat: Asleep {
            count: beats,
            waker: waker.again()?,
            rt: rt.clone()?,
        },
        clock: Still {
            moment: Moment::of(1000),
        },
        waker: Some(waker),
    };
    let disks = made_disks(rt, alloc)?;
    ran(rt, alloc, "serve d alice:a bob:b", parts, ticker, disks)
}

/// How many entries the lists had that a session was shown without an event.
fn say_fronts(out: &mut String, turns: &[Turn]) -> Result<(), Fault> {
    for turn in turns {
        if let Turn::Seen { front, .. } = turn {
            writeln!(out, "shown of {front} entries")?;
        }
    }
    Ok(())
}

/// The same, of all sessions.
fn say_shown(out: &mut String, turns: &[TurnList]) -> Result<(), Fault> {
    for list in turns {
        if let Some(turns) = list.values() {
            say_fronts(out, turns)?;
        }
    }
    Ok(())
}

/// What the last session wrote.
fn say_written<R>(out: &mut String, ran: &Ran<Waiting<R>, Asked<R>, MemDisk>) -> Result<(), Fault>
where
    R: std::rt::Clock + Drop,
{
    if let Some(end) = ran.ends.last() {
        if let Ok(text) = str::from_utf8(&end.sink.text) {
            out.push_str(text)?;
        }
    }
    Ok(())
}

/// The events that go back to an older commit, each with its caller and its moment.
fn say_reverts(out: &mut String, events: &[Happened]) -> Result<(), Fault> {
    for happened in events {
        if happened.event == Event::Revert {
            let caller = happened.caller;
            let moment = happened.moment.seconds();
            writeln!(out, "revert of caller {caller} at {moment}")?;
        }
    }
    Ok(())
}

/// What resulted from each case.
pub(crate) fn say_all<R>(rt: &R, alloc: Global, out: &mut String) -> Result<(), Fault>
where
    R: Threads + Wait + Sync + Send + std::rt::Clock + Clone + Drop,
{
    let status = two_wait(rt, alloc)?.status;
    writeln!(
        out,
        "two sessions that wait for each other: status {status}"
    )?;
    let ran = one_waits(rt, alloc)?;
    let status = ran.status;
    writeln!(out, "a session that waits for the ticker: status {status}")?;
    if let Some(events) = ran.history.events.values() {
        say_reverts(out, events)?;
    }
    let ran = two_beside(rt, alloc)?;
    let status = ran.status;
    writeln!(
        out,
        "two sessions beside the ticker that meets a deadline: status {status}"
    )?;
    if let Some(events) = ran.history.events.values() {
        say_reverts(out, events)?;
    }
    say_shown(out, &ran.turns)?;
    say_written(out, &ran)?;
    let ran = show_behind(rt, alloc)?;
    let status = ran.status;
    writeln!(
        out,
        "shows before and behind another session's commit: status {status}"
    )?;
    say_shown(out, &ran.turns)?;
    say_written(out, &ran)?;
    let ran = shows_within(rt, alloc)?;
    let status = ran.status;
    let in_time = ran.disk_a.in_time;
    writeln!(
        out,
        "shows within another session's commit: status {status}, in time {in_time}"
    )?;
    say_shown(out, &ran.turns)?;
    let status = ends_asleep(rt, alloc)?.status;
    writeln!(
        out,
        "sessions that end while the ticker sleeps: status {status}"
    )?;
    Ok(())
}
