//! An open database, which several callers ask, and which readers see.

ghost use Rattle.std.specs.Prelude.{◌≡◌, ◌<◌, ◌≤◌, length, IfOk};
ghost use Rattle.commands.specs.Sound.{IsSound};

use crate::holding::say_held;
use crate::reading::{say_read, say_within, take_in};
use active_snapshot::{Naming, SnapReader};
use cfg_base::Moment;
use commands::Command;
use config_core::Reply;
use config_db::{Answered, ClosedBook, Database, Ticked};
use disk_model::MemDisk;
use io_edge::VecSink;
use reply_text::put_reply;
use script_lines::{
    Arg, Fault, Text, bytes_of, first_and_rest, number, say, say_counted, say_path, say_text,
    small_number,
};
use shell_words::{ReadFault, Words0, read_line};
use std::alloc::Global;
use std::sync::Wait;

/// A database, of each caller whether it is in configuration mode, and its reader. It is not `Drop`: end it by `close`.
pub(crate) struct Running<J: Naming> {
    book: Database<MemDisk, J>,
    configuring: Vec<bool>,
    readers: Vec<SnapReader<J>>,
    ghost callers: { length configuring.items ≡ length book.users },
}

/// The most bytes that the text of a reply has.
const REPLY: u64 = 65_536;

const NO_CALLER: Fault = Fault::Script("a caller is one of the users, counted from 1");

/// The command of a line.
fn command_of(alloc: Global, configuring: bool, line: &str) -> Result<Command, Fault>
    ensures { IfOk result IsSound }
{
    let line = bytes_of(alloc, line)?;
    match read_line(alloc, configuring, &line) {
        Ok(Some(Words0::Whole(command))) => Ok(command),
        Err(ReadFault::NoMemory) => Err(Fault::NoMemory),
        _ => Err(Fault::Script("the line of a step is a command without a text")),
    }
}

/// The text of a reply.
fn say_reply(alloc: Global, out: &mut Text, reply: &Reply) -> Result<(), Fault> {
    let mut sink = VecSink::new(alloc, REPLY, Vec::new(alloc))?;
    match put_reply(&mut sink, reply) {
        Ok(()) => {
            say_text(out, sink.contents());
            Ok(())
        }
        Err(_) => Err(Fault::Script("a reply has at most 65536 bytes")),
    }
}

/// Whether a caller is in configuration mode once it has that reply.
fn configures(reply: &Reply, configuring: bool) -> bool {
    match reply {
        Reply::Entered(_) => true,
        Reply::Left | Reply::LoggedOut | Reply::Committed { quit: true, .. } => false,
        _ => configuring,
    }
}

/// Asks a command.
fn ask<R: Wait, J: Naming>(
    rt: &R,
    book: &mut Database<MemDisk, J>,
    caller: u32,
    moment: Moment,
    command: Command,
) -> Answered
    requires caller { (0 < caller) × (caller ≤ length book.old.users) }
    requires sound { IsSound command }
    ensures { book.new.users ≡ book.old.users }
{
    book.step(rt, caller, moment, command)
}

/// Looks at the time.
fn look<R: Wait, J: Naming>(rt: &R, book: &mut Database<MemDisk, J>, moment: Moment) -> Ticked
    ensures { book.new.users ≡ book.old.users }
{
    book.tick(rt, moment)
}

/// Looks at the time in a caller's name.
fn make_ready<R: Wait, J: Naming>(
    rt: &R,
    book: &mut Database<MemDisk, J>,
    caller: u32,
    moment: Moment,
) -> Ticked
    requires { (0 < caller) × (caller ≤ length book.old.users) }
    ensures { book.new.users ≡ book.old.users }
{
    book.ready(rt, caller, moment)
}

/// Entries that are added are held from now on.
fn hold<J: Naming>(book: &mut Database<MemDisk, J>)
    ensures { book.new.users ≡ book.old.users }
{
    book.hold_entries();
}

/// What resulted from a look at the time.
fn say_ticked(out: &mut Text, ticked: Ticked) {
    match ticked {
        Ticked::Nothing => say(out, "nothing"),
        Ticked::Settled => say(out, "settled"),
        Ticked::Reverted => say(out, "reverted"),
        Ticked::Carried => say(out, "carried"),
        Ticked::DiskFault => say(out, "disk fault"),
        Ticked::NoMemory => out.lacks_memory(),
    }
}

impl<J: Naming> Running<J> {
    /// A database that was opened, of whose users this says that each is in operational mode. No reader is taken.
    pub(crate) fn of(
        alloc: Global,
        book: Database<MemDisk, J>,
        configuring: Vec<bool>,
    ) -> Running<J>
        requires { length configuring.items ≡ length book.users }
    {
        Running {
            book,
            configuring,
            readers: Vec::new(alloc),
        }
    }

    /// Takes a reader for each caller.
    pub(crate) fn take_readers(&mut self) -> Result<(), Fault> {
        let mut left = self.book.readers();
        for _ in 0..self.configuring.len() {
            if let Some(reader) = left.take() {
                self.readers.push(reader)?;
            }
        }
        Ok(())
    }

    /// The place of a caller among the users.
    fn place_of(&self, caller: u32) -> Result<usize, Fault>
        ensures caller { IfOk result (λ _. (0 < caller) × (caller ≤ length self.now.book.users)) }
        ensures place { IfOk result (λ place. place < length self.now.configuring.items) }
    {
        match (caller as usize).checked_sub(1) {
            Some(place) if place < self.configuring.len() => Ok(place),
            _ => Err(NO_CALLER),
        }
    }

    /// Keeps what a reply says of its caller's mode.
    fn take_reply(&mut self, place: usize, reply: &Reply)
        requires { place < length self.old.configuring.items }
    {
        self.configuring[place] = configures(reply, self.configuring[place]);
    }

    /// A command, and its answer.
    fn ask<R: Wait>(
        &mut self,
        rt: &R,
        alloc: Global,
        place: usize,
        caller: u32,
        moment: Moment,
        command: Command,
        out: &mut Text,
    ) -> Result<(), Fault>
        requires caller { (0 < caller) × (caller ≤ length self.old.book.users) }
        requires place { place < length self.old.configuring.items }
        requires sound { IsSound command }
    {
        match ask(rt, &mut self.book, caller, moment, command) {
            Answered::NoMemory => Err(Fault::NoMemory),
            Answered::Kept {
                place: event,
                reply,
            } => {
                self.take_reply(place, &reply);
                say_counted(out, "at", event);
                say_reply(alloc, out, &reply)
            }
        }
    }

    /// step CALLER SECONDS LINE
    pub(crate) fn step<R: Wait>(
        &mut self,
        rt: &R,
        alloc: Global,
        text: &str,
        out: &mut Text,
    ) -> Result<(), Fault> {
        let (caller, text) = first_and_rest(text);
        let (seconds, line) = first_and_rest(text);
        let caller = small_number(caller.as_bytes())?;
        let moment = Moment::of(number(seconds.as_bytes())?);
        let place = self.place_of(caller)?;
        let command = command_of(alloc, self.configuring[place], line)?;
        self.ask(rt, alloc, place, caller, moment, command, out)
    }

    /// tick SECONDS
    fn tick<R: Wait>(&mut self, rt: &R, seconds: &[u8], out: &mut Text) -> Result<(), Fault> {
        let moment = Moment::of(number(seconds)?);
        say_ticked(out, look(rt, &mut self.book, moment));
        Ok(())
    }

    /// ready CALLER SECONDS
    fn ready<R: Wait>(
        &mut self,
        rt: &R,
        caller: &[u8],
        seconds: &[u8],
        out: &mut Text,
    ) -> Result<(), Fault> {
        let caller = small_number(caller)?;
        let moment = Moment::of(number(seconds)?);
        self.place_of(caller)?;
        say_ticked(out, make_ready(rt, &mut self.book, caller, moment));
        Ok(())
    }

    /// level CALLER
    fn say_level(&self, caller: &[u8], out: &mut Text) -> Result<(), Fault> {
        let caller = small_number(caller)?;
        self.place_of(caller)?;
        say_path(out, "level", self.book.level(caller));
        Ok(())
    }

    /// note: how many views there are, and how many of them are published
    fn say_note(&self, out: &mut Text) {
        let note = self.book.note();
        say_counted(out, "views", note.kept());
        say_counted(out, "published", note.published());
    }

    /// hold: entries that are added are held from now on
    fn hold(&mut self) {
        hold(&mut self.book);
    }

    /// held: the entries that are held
    fn say_held(&self, out: &mut Text) {
        say_held(out, self.book.appended());
    }

    /// read CALLER SECONDS: what the caller's reader shows at that moment
    fn read(
        &mut self,
        alloc: Global,
        caller: &[u8],
        seconds: &[u8],
        out: &mut Text,
    ) -> Result<(), Fault> {
        let moment = Moment::of(number(seconds)?);
        let place = self.place_of(small_number(caller)?)?;
        match self.readers.get_mut(place) {
            Some(reader) => say_read(alloc, reader, moment, out),
            None => return Err(NO_CALLER),
        }
        Ok(())
    }

    /// learn CALLER: the caller's reader is told how far the list goes, and handed the last view
    fn learn(&mut self, caller: &[u8]) -> Result<(), Fault> {
        let place = self.place_of(small_number(caller)?)?;
        match self.readers.get_mut(place) {
            Some(reader) => take_in(&self.book, reader),
            None => Err(NO_CALLER),
        }
    }

    /// tell CALLER: the caller's reader is told how far the list goes
    fn tell(&mut self, caller: &[u8]) -> Result<(), Fault> {
        let place = self.place_of(small_number(caller)?)?;
        match self.readers.get_mut(place) {
            Some(reader) => reader.learn(&self.book.note(), None),
            None => return Err(NO_CALLER),
        }
        Ok(())
    }

    /// within CALLER: whether all that the caller's reader was shown is in the list
    fn ask_within(&self, caller: &[u8], out: &mut Text) -> Result<(), Fault> {
        let place = self.place_of(small_number(caller)?)?;
        match self.readers.get(place) {
            Some(reader) => say_within(&self.book, reader, out),
            None => return Err(NO_CALLER),
        }
        Ok(())
    }

    /// Answers a call of an open database.
    pub(crate) fn answer<R: Wait>(
        &mut self,
        rt: &R,
        alloc: Global,
        name: &str,
        args: &[Arg],
        out: &mut Text,
    ) -> Result<(), Fault> {
        match (name, args) {
            ("tick", [seconds]) => self.tick(rt, seconds, out),
            ("ready", [caller, seconds]) => self.ready(rt, caller, seconds, out),
            ("level", [caller]) => self.say_level(caller, out),
            ("read", [caller, seconds]) => self.read(alloc, caller, seconds, out),
            ("learn", [caller]) => self.learn(caller),
            ("tell", [caller]) => self.tell(caller),
            ("within", [caller]) => self.ask_within(caller, out),
            ("note", []) => {
                self.say_note(out);
                Ok(())
            }
            ("hold", []) => {
                self.hold();
                Ok(())
            }
            ("held", []) => {
                self.say_held(out);
                Ok(())
            }
            _ => Err(Fault::Script("no such call, or not with as many words")),
        }
    }

    /// What is left of it.
    pub(crate) fn close<R: Wait>(self, rt: &R) -> ClosedBook<MemDisk> {
        let Running {
            book,
            configuring: _,
            readers: _,
        } = self;
        book.close(rt)
    }
}

/// Whether a call is one of an open database.
pub(crate) fn is_call(name: &str) -> bool {
    matches!(
        name,
        "tick" | "ready" | "level" | "read" | "learn" | "tell" | "within" | "note" | "hold" | "held"
    )
}
