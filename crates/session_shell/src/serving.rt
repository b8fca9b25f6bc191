//! A session while it is served: one line after another, and the last logout.

ghost use Rattle.std.specs.Prelude.{◌≡◌, ◌<◌, ◌≤◌, ◌+◌, List, ℕ, length, OnErr, Some, None, [], ◌++◌, false};
ghost use Rattle.cfg_base.specs.Counts.{Rose};
ghost use Rattle.commands.specs.declared.command.Command.TheVariants.{Logout};
ghost use Rattle.io_edge.specs.Ends.{onto};
ghost use Rattle.session_shell.specs.declared.reading.Item.TheVariants.{Ask};
ghost use Rattle.session_shell.specs.declared.reading.Reading.TheVariants.{Operational};
ghost use Rattle.session_shell.specs.declared.turn.How.TheVariants.{SinkFault, SourceFault};
ghost use Rattle.session_shell.specs.Items.{AsksSound, ReadsLine};
ghost use Rattle.session_shell.specs.Steps.{AsksOnly, Ends, Finishes, is_end, is_out, ServesItem, standing, StepsOn, TakesLine, view_of};

use crate::answer::{answer, how_next, is_out, let_go, turn_of};
use crate::door::Door;
use crate::json_show::{Manner, manner_of, whole_show};
use crate::reading::{Item, Reading, comes_of};
use crate::synchronizing::manner_of_commit;
use crate::turn::{How, Turn};
use cfg_base::{Limits, NoMemory};
use commands::Command;
use io_edge::{Clock, Line, Lines, PutFailed, Sink, Source};
use reply_text::{put_fault, put_no_memory};
use std::alloc::Global;
use std::marker::Model;
use std::sync::Wait;
use trace_list::Trace;

/// What a session reads, what it writes to, what tells it the time, its turns, and how it reads its next line.
pub(crate) struct Serving<S: Source, K: Sink, C: Clock> {
    alloc: Global,
    lines: Lines<S>,
    sink: K,
    clock: C,
    turns: Trace<Turn>,
    reading: Reading,
}

/// What is left of a session that was served.
pub(crate) struct Parts<S, K, C> {
    pub source: S,
    pub sink: K,
    pub clock: C,
    pub turns: Trace<Turn>,
}

impl<S: Source, K: Sink, C: Clock> Model for Serving<S, K, C> {
    ghost use Rattle.session_shell.specs.Steps.{ServingView};

    ghost Value = { ServingView C };

    ghost view = { λ s. record {
      feed = s.lines;
      sink = K.view s.sink;
      clock = s.clock;
      turns = s.turns.items;
      spare = s.turns.spare;
      reading = s.reading;
    } };
}

impl<S: Source, K: Sink, C: Clock> Serving<S, K, C> {
    /// A session that has served nothing yet, with room for turns.
    pub(crate) fn new(
        alloc: Global,
        source: S,
        sink: K,
        clock: C,
        turns: Trace<Turn>,
        limits: Limits,
    ) -> Serving<S, K, C>
        requires { turns.items ≡ [] }
        ensures input { (result.feed.left ≡ (S.view source).left) × (result.feed.room ≡ limits.input) × (result.feed.ahead ≡ 0)
            × (result.feed.faults ≡ (S.view source).faults) }
        ensures ends { (result.sink ≡ K.view sink) × (result.clock ≡ clock) × (result.turns ≡ []) }
        ensures room { result.spare ≡ turns.spare }
        ensures first { result.reading ≡ Operational }
    {
        Serving {
            alloc,
            lines: Lines::new(alloc, source, limits),
            sink,
            clock,
            turns,
            reading: Reading::Operational,
        }
    }

    /// Its parts. What was read ahead is gone.
    pub(crate) fn into_parts(self) -> Parts<S, K, C>
        ensures left { (ahead : List ℕ) × (length ahead ≡ self.feed.ahead) × (self.feed.left ≡ onto ahead (S.view result.source).left) }
        ensures faults { (S.view result.source).faults ≡ self.feed.faults }
        ensures rest { (K.view result.sink ≡ self.sink) × (result.clock ≡ self.clock) × (result.turns.items ≡ self.turns) }
    {
        let Serving {
            alloc: _,
            lines,
            sink,
            clock,
            turns,
            reading: _,
        } = self;
        Parts {
            source: lines.into_source(),
            sink,
            clock,
            turns,
        }
    }

    /// Serves an item: takes the moment, asks the door or refuses, synchronizes where it is to, and writes the text.
    fn serve_item<D: Door, R: Wait>(
        &mut self,
        rt: &R,
        door: &mut D,
        item: Item,
    ) -> Result<(), PutFailed>
        requires room { 0 < self.old.spare }
        requires sound { AsksSound (Some item) }
        ensures serves { ServesItem D.follows D.syncs item result
            (standing door.old self.old.reading (view_of C.coming self.old))
            (standing door.new self.new.reading (view_of C.coming self.new)) }
        ensures feed { self.new.feed ≡ self.old.feed }
        ensures spare { self.old.spare ≡ self.new.spare + 1 }
        ensures cause { OnErr result (Rose self.old.sink.faults self.new.sink.faults) }
        ensures later { self.old.sink.faults ≤ self.new.sink.faults }
    {
        let moment = self.clock.now();
        match item {
            Item::Ask(command) => {
                let given = door.ask(rt, moment, command);
                self.turns.note(turn_of(moment, &given, &Manner::Plain));
                answer(&mut self.sink, &mut self.reading, given, Manner::Plain)
            }
            Item::Synchronize(command) => {
                let given = door.ask(rt, moment, command);
                let manner = manner_of_commit(rt, door, &given);
                self.turns.note(turn_of(moment, &given, &manner));
                answer(&mut self.sink, &mut self.reading, given, manner)
            }
            Item::ShowJson => {
                let given = door.ask(rt, moment, whole_show(self.alloc));
                let manner = manner_of(self.alloc, &given);
                self.turns.note(turn_of(moment, &given, &manner));
                answer(&mut self.sink, &mut self.reading, given, manner)
            }
            Item::Wrong(fault) => {
                let put = put_fault(&mut self.sink, &fault);
                self.turns.note(Turn::Local(fault));
                put
            }
            Item::NoMemory => {
                self.turns.note(Turn::NoMemory);
                put_no_memory(&mut self.sink)
            }
        }
    }

    /// Serves a line.
    fn take<D: Door, R: Wait>(&mut self, rt: &R, door: &mut D, line: &Line) -> Option<How>
        requires room { 0 < self.old.spare }
        requires reads { ReadsLine self.old.reading line.now }
        ensures takes { TakesLine D.follows D.syncs line.now result
            (standing door.old self.old.reading (view_of C.coming self.old))
            (standing door.new self.new.reading (view_of C.coming self.new)) }
        ensures feed { self.new.feed ≡ self.old.feed }
        ensures spare { self.old.spare ≤ self.new.spare + 1 }
        ensures end { result ≡ None → is_end line.now ≡ false }
        ensures cause { result ≡ Some SinkFault → Rose self.old.sink.faults self.new.sink.faults }
        ensures later { self.old.sink.faults ≤ self.new.sink.faults }
    {
        match comes_of(self.alloc, &mut self.reading, line) {
            Ok(None) => how_next(line, &self.reading, Ok(())),
            Ok(Some(item)) => {
                let put = self.serve_item(rt, door, item);
                how_next(line, &self.reading, put)
            }
            Err(NoMemory) => Some(How::NoMemory),
        }
    }

    /// Reads the next line, and serves it.
    fn read_next<D: Door, R: Wait>(&mut self, rt: &R, door: &mut D) -> Option<How>
        requires room { 0 < self.old.spare }
        requires going { is_out self.old.reading ≡ false }
        ensures steps { StepsOn D.follows D.syncs result self.old.feed self.new.feed
            (standing door.old self.old.reading (view_of C.coming self.old))
            (standing door.new self.new.reading (view_of C.coming self.new)) }
        ensures spare { self.old.spare ≤ self.new.spare + 1 }
        ensures falls { result ≡ None → self.new.feed.room < self.old.feed.room }
        ensures source_cause { result ≡ Some SourceFault → Rose self.old.feed.faults self.new.feed.faults }
        ensures sink_cause { result ≡ Some SinkFault → Rose self.old.sink.faults self.new.sink.faults }
        ensures later_source { self.old.feed.faults ≤ self.new.feed.faults }
        ensures later_sink { self.old.sink.faults ≤ self.new.sink.faults }
    {
        match self.lines.next() {
            Ok(Line::Failed) => Some(How::SourceFault),
            Ok(Line::InputFull) => Some(How::InputFull),
            Ok(line) => self.take(rt, door, &line),
            Err(NoMemory) => Some(How::NoMemory),
        }
    }

    /// Makes room for two turns, and reads the next line: room is left for the last logout.
    fn step<D: Door, R: Wait>(&mut self, rt: &R, door: &mut D) -> Option<How>
        requires room { 0 < self.old.spare }
        requires going { is_out self.old.reading ≡ false }
        ensures steps { StepsOn D.follows D.syncs result self.old.feed self.new.feed
            (standing door.old self.old.reading (view_of C.coming self.old))
            (standing door.new self.new.reading (view_of C.coming self.new)) }
        ensures room { 0 < self.new.spare }
        ensures falls { result ≡ None → self.new.feed.room < self.old.feed.room }
        ensures source_cause { result ≡ Some SourceFault → Rose self.old.feed.faults self.new.feed.faults }
        ensures sink_cause { result ≡ Some SinkFault → Rose self.old.sink.faults self.new.sink.faults }
        ensures later_source { self.old.feed.faults ≤ self.new.feed.faults }
        ensures later_sink { self.old.sink.faults ≤ self.new.sink.faults }
    {
        match self.turns.reserve(2) {
            Ok(()) => self.read_next(rt, door),
            Err(_) => Some(How::NoMemory),
        }
    }

    /// Serves the lines, one after another, until the session ends.
    pub(crate) fn serve<D: Door, R: Wait>(&mut self, rt: &R, door: &mut D) -> How
        requires room { 0 < self.old.spare }
        requires first { self.old.reading ≡ Operational }
        requires none_ahead { self.old.feed.ahead ≡ 0 }
        ensures ends { Ends D.follows D.syncs self.old.feed.room result self.old.feed.left door.old (view_of C.coming self.old)
            self.new.feed (standing door.new self.new.reading (view_of C.coming self.new)) }
        ensures room { 0 < self.new.spare }
        ensures source_cause { result ≡ SourceFault → Rose self.old.feed.faults self.new.feed.faults }
        ensures sink_cause { result ≡ SinkFault → Rose self.old.sink.faults self.new.sink.faults }
        ensures later_source { self.old.feed.faults ≤ self.new.feed.faults }
        ensures later_sink { self.old.sink.faults ≤ self.new.sink.faults }
    {
        'lines: loop {
            if let Some(how) = self.step(rt, door) {
                return how;
            }
        }
    }

    /// Asks the last logout, and writes no answer.
    fn ask_unheard<D: Door, R: Wait>(&mut self, rt: &R, door: &mut D)
        requires room { 0 < self.old.spare }
        ensures asks { AsksOnly D.follows D.syncs (Ask Logout) door.old door.new
            (view_of C.coming self.old) (view_of C.coming self.new) }
        ensures feed { self.new.feed ≡ self.old.feed }
        ensures same { self.new.sink.faults ≡ self.old.sink.faults }
    {
        let moment = self.clock.now();
        let given = door.ask(rt, moment, Command::Logout);
        self.turns.note(turn_of(moment, &given, &Manner::Plain));
        let_go(given);
    }

    /// Asks the last logout, and writes its answer, unless the sink failed.
    fn log_out<D: Door, R: Wait>(&mut self, rt: &R, door: &mut D, how: How)
        requires room { 0 < self.old.spare }
        requires going { is_out self.old.reading ≡ false }
        ensures finishes { Finishes D.follows D.syncs how door.old door.new self.old.reading
            (view_of C.coming self.old) (view_of C.coming self.new) }
        ensures feed { self.new.feed ≡ self.old.feed }
    {
        match how {
            How::SinkFault => self.ask_unheard(rt, door),
            How::Clean | How::SourceFault | How::InputFull | How::NoMemory => {
                let _put = self.serve_item(rt, door, Item::Ask(Command::Logout));
            }
        }
    }

    /// Logs a session out, if it isn't.
    pub(crate) fn finish<D: Door, R: Wait>(&mut self, rt: &R, door: &mut D, how: How)
        requires room { 0 < self.old.spare }
        ensures finishes { Finishes D.follows D.syncs how door.old door.new self.old.reading
            (view_of C.coming self.old) (view_of C.coming self.new) }
        ensures feed { self.new.feed ≡ self.old.feed }
    {
        if !is_out(&self.reading) {
            self.log_out(rt, door, how);
        }
    }
}
