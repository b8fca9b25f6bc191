//! The two disks while no database is open, and what happened in the last one over them.

ghost use Rattle.std.specs.Prelude.{◌≡◌, [], IfOk};

use crate::book::{NewBook, ROOM, limits};
use crate::images::{Left, image};
use active_snapshot::{Front, Naming, Shelf, open_book};
use cfg_base::{Calls, NoMemory, Users};
use commit_ledger::Ledger;
use config_core::{Event, Outcome};
use config_db::{ClosedBook, Database};
use disk_model::{FailAt, MemDisk};
use script_lines::{Fault, Text, say, say_counted, say_pending};
use session_history::{Happened, History};
use std::alloc::Global;
use std::marker::Brand;
use std::sync::Wait;
use stored_ledger::{StartFault, StartWhy};
use trace_list::Trace;

/// How many calls of `write_at` and `sync` each disk takes.
const CALLS: u32 = 4_000;

/// The disks, and what happened over them since the last opening.
#[derive(Drop)]
pub(crate) struct Resting {
    a: MemDisk,
    b: MemDisk,
    made: Calls,
    events: Trace<Happened>,
}

/// One of the two disks.
#[derive(Clone, Copy)]
pub(crate) enum Which {
    A,
    B,
}

/// a or b
pub(crate) fn which_of(word: &[u8]) -> Result<Which, Fault> {
    match word {
        b"a" => Ok(Which::A),
        b"b" => Ok(Which::B),
        _ => Err(Fault::Script("a disk is a or b")),
    }
}

/// Why a database isn't opened.
fn say_why(out: &mut Text, why: StartWhy) {
    if let StartWhy::NoMemory = why {
        out.lacks_memory();
    }
    out.put("= ");
    out.put_shown(&why);
    out.put("\n");
}

/// What a list has: its entries, the commits that are kept, the statements of the last one, and the deadline.
fn say_list(out: &mut Text, list: &Ledger) {
    out.put("= entries ");
    out.put_number(list.count());
    out.put(", commits ");
    out.put_number(u64::from(list.kept()));
    out.put(", statements ");
    out.put_number(u64::from(list.active().count()));
    out.put("\n");
    if let Some(pending) = list.pending() {
        say_pending(out, pending.target, pending.deadline);
    }
}

/// The list over which a database began.
fn say_opening(out: &mut Text, history: &History) {
    match &history.opening {
        Some(list) => say_list(out, list),
        None => say(out, "no list"),
    }
}

/// What a start finds on two disks.
fn say_started<R: Wait, J: Naming>(
    rt: &R,
    alloc: Global,
    shelf: Shelf,
    front: Front,
    disks: Resting,
    out: &mut Text,
)
    requires { (front.book ≡ J.book) × (shelf ≡ J.book) × (front.list ≡ []) }
{
    let Resting { a, b, .. } = disks;
    let users = Users::new(alloc);
    match Database::<MemDisk, J>::start(alloc, shelf, front, a, b, users, limits(ROOM), false) {
        Err(fault) => say_why(out, fault.why),
        Ok(book) => say_opening(out, &book.close(rt).history),
    }
}

/// The same, by a book of its own.
fn say_found<R: Wait>(rt: &R, alloc: Global, disks: Resting, out: &mut Text) {
    let (shelf, front) = open_book();
    say_started::<R, Brand>(rt, alloc, shelf, front, disks, out);
}

fn event_as(event: &Event) -> &'static str {
    match event {
        Event::Settle(true) => " settle kept",
        Event::Settle(false) => " settle lost",
        Event::Revert => " revert",
        Event::Carry => " carry",
        Event::Command(_) => " command",
    }
}

fn outcome_as(outcome: Outcome) -> &'static str {
    match outcome {
        Outcome::Done => "\n",
        Outcome::Fault => " failing\n",
    }
}

/// How many calls were made of both disks.
fn put_calls(out: &mut Text, calls: Calls) {
    out.put("calls ");
    out.put_number(calls.a);
    out.put(" ");
    out.put_number(calls.b);
}

/// An event: whose it is, when it came, the calls of both disks by then, and what it is.
fn say_event(out: &mut Text, happened: &Happened) {
    out.put("= event of ");
    out.put_number(u64::from(happened.caller));
    out.put(" at ");
    out.put_number(happened.moment.seconds());
    out.put(" ");
    put_calls(out, happened.calls);
    out.put(event_as(&happened.event));
    out.put(outcome_as(happened.outcome));
}

fn say_calls(out: &mut Text, calls: Calls) {
    out.put("= ");
    put_calls(out, calls);
    out.put("\n");
}

/// The calls of both disks by the last of the events by which no more than so many of one were made.
fn calls_among(events: &[Happened], which: Which, call: u64) -> Calls {
    let mut calls = Calls { a: 0, b: 0 };
    for happened in events {
        let last = match which {
            Which::A => happened.calls.a,
            Which::B => happened.calls.b,
        };
        if last <= call {
            calls = happened.calls;
        }
    }
    calls
}

fn disk_of(alloc: Global, failing: Vec<FailAt>) -> Result<MemDisk, NoMemory> {
    MemDisk::new(alloc, ROOM, CALLS, failing, Vec::new(alloc))
}

impl Resting {
    /// Two disks that hold nothing, with calls that are to fail.
    pub(crate) fn fresh(
        alloc: Global,
        failing_a: Vec<FailAt>,
        failing_b: Vec<FailAt>,
    ) -> Result<Resting, Fault> {
        let a = disk_of(alloc, failing_a)?;
        let b = disk_of(alloc, failing_b)?;
        Ok(Resting::of(alloc, a, b))
    }

    /// Two disks over which no database was open.
    fn of(alloc: Global, a: MemDisk, b: MemDisk) -> Resting {
        Resting {
            a,
            b,
            made: Calls { a: 0, b: 0 },
            events: Trace::new(alloc, true),
        }
    }

    /// What came back with a refusal.
    pub(crate) fn refused(alloc: Global, fault: StartFault<MemDisk>, out: &mut Text) -> Resting {
        let StartFault { why, a, b } = fault;
        say_why(out, why);
        Resting::of(alloc, a, b)
    }

    /// What is left of a database that was closed, of which it is reported whether an entry is in flight still, how many events there
    /// are and how many calls were made.
    pub(crate) fn closed(book: ClosedBook<MemDisk>, out: &mut Text) -> Resting {
        let ClosedBook {
            history,
            fault,
            a,
            b,
        } = book;
        let made = history.made;
        say_counted(out, "events", history.events.len() as u64);
        say_calls(out, made);
        if fault {
            say(out, "in flight");
        }
        Resting {
            a,
            b,
            made,
            events: history.events,
        }
    }

    /// Opens the database that the disks hold, or makes one, with that limit of its journal.
    pub(crate) fn open<R: Wait, J: Naming>(
        self,
        rt: &R,
        alloc: Global,
        empty: NewBook<J>,
        makes: bool,
        users: Users,
        journal: u64,
    ) -> Result<Database<MemDisk, J>, StartFault<MemDisk>>
        ensures { IfOk result (λ book. book.users ≡ users) }
    {
        let Resting { a, b, .. } = self;
        if makes {
            empty.create(rt, alloc, a, b, users, journal)
        } else {
            empty.start(alloc, a, b, users, journal)
        }
    }

    /// events
    pub(crate) fn say_events(&self, out: &mut Text) {
        if let Some(events) = self.events.values() {
            for happened in events {
                say_event(out, happened);
            }
        }
    }

    /// The image of one of the disks after so many calls since the opening.
    fn image_of(
        &self,
        alloc: Global,
        which: Which,
        call: u64,
        left: Left,
    ) -> Result<MemDisk, Fault> {
        let (disk, made) = match which {
            Which::A => (&self.a, self.made.a),
            Which::B => (&self.b, self.made.b),
        };
        let before = disk.count().saturating_sub(made);
        image(alloc, disk, before.saturating_add(call), left)
    }

    /// The disks as a crash after so many calls since the opening leaves them.
    pub(crate) fn crashed(
        &self,
        alloc: Global,
        calls: Calls,
        left: Left,
    ) -> Result<Resting, Fault> {
        let a = self.image_of(alloc, Which::A, calls.a, left)?;
        let b = self.image_of(alloc, Which::B, calls.b, left)?;
        Ok(Resting::of(alloc, a, b))
    }

    /// The calls of both disks after so many of one, of the other one by the last event by then.
    fn calls_by(&self, which: Which, call: u64) -> Calls {
        let mut calls = match self.events.values() {
            Some(events) => calls_among(events, which, call),
            None => Calls { a: 0, b: 0 },
        };
        match which {
            Which::A => calls.a = call,
            Which::B => calls.b = call,
        }
        calls
    }

    /// What a start finds after a crash that follows so many calls.
    fn say_found_behind<R: Wait>(
        &self,
        rt: &R,
        alloc: Global,
        calls: Calls,
        left: Left,
        out: &mut Text,
    ) -> Result<(), Fault> {
        let disks = self.crashed(alloc, calls, left)?;
        say_found(rt, alloc, disks, out);
        Ok(())
    }

    /// found a|b CALL old|new|BYTE: what a start finds after a crash that follows that call
    pub(crate) fn say_found_after<R: Wait>(
        &self,
        rt: &R,
        alloc: Global,
        which: Which,
        call: u64,
        left: Left,
        out: &mut Text,
    ) -> Result<(), Fault> {
        self.say_found_behind(rt, alloc, self.calls_by(which, call), left, out)
    }

    /// holds: what a start finds on the disks as they are
    pub(crate) fn say_holds<R: Wait>(
        &self,
        rt: &R,
        alloc: Global,
        out: &mut Text,
    ) -> Result<(), Fault> {
        self.say_found_behind(rt, alloc, self.made, Left::New, out)
    }
}
