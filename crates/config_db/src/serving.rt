//! What comes before a command, and the command: one method for each.

ghost use Rattle.std.specs.Prelude.{◌≡◌, ◌<◌, ◌≤◌, true, length, None, IsSome, IfOk, OnErr};
ghost use Rattle.commit_journal.specs.Journal.{disks_of};
ghost use Rattle.disk_model.specs.Pair.{FaultOnEither};
ghost use Rattle.commands.specs.Sound.{IsSound};
ghost use Rattle.config_core.specs.declared.event.Outcome.TheVariants.{Done, Fault};
ghost use Rattle.config_core.specs.Machine.{Fits, waiting_of};
ghost use Rattle.config_db.specs.Moves.{Happens, Settles, SettlesBefore};
ghost use Rattle.config_db.specs.Answers.{Answers, CatchesUp, DoesDue, IsClear, IsDue, MakesWay, PublishesFirst, Takes, due_as};
ghost use Rattle.session_history.specs.Events.{is_command};

use crate::answer::{Answered, Before, Ticked};
use crate::database::Database;
use crate::showing::{publish_late, show_settled, write_shown};
use crate::turning::{note, note_settling, prepare, unasked, unneeded, unwritten};
use crate::writing::find_out;
use active_snapshot::Naming;
use cfg_base::{Moment, NoMemory};
use commands::Command;
use config_core::{Event, Need, Outcome, Reply};
use disk_model::Disk;
use session_history::{Happened, histories_have_one_outcome};
use std::sync::Wait;

/// What resulted from an event.
#[derive(Debug, Drop)]
pub(crate) struct Ended {
    pub(crate) outcome: Outcome,
    pub(crate) reply: Reply,
}

impl<D: Disk, J: Naming> Database<D, J> {
    // An event with nothing in flight: the entry that it makes is written, and then it is carried out.
    fn carry_out<R: Wait>(
        &mut self,
        rt: &R,
        caller: u32,
        moment: Moment,
        event: Event,
    ) -> Result<Ended, NoMemory>
        requires fits { Fits self.old.state caller moment event }
        requires free { self.old.state.flight ≡ None }
        ensures ok { IfOk result
            (λ ended. Happens caller moment event ended.outcome ended.reply self.old self.new) }
        ensures cause { IfOk result
            (λ ended. ended.outcome ≡ Fault → FaultOnEither (disks_of self.old.journal) (disks_of self.new.journal)) }
        ensures err { OnErr result (self.new ≡ self.old) }
    {
        histories_have_one_outcome();
        // One place more for the settling of what may be in flight then.
        self.events.reserve(2)?;
        match prepare(&self.core, caller, moment, &event) {
            Err(NoMemory) => Err(NoMemory),
            Ok((prepared, full)) => match write_shown(
                rt,
                self.alloc,
                &mut self.journal,
                self.core.ledger(),
                &mut self.shown,
                &prepared,
                full,
            ) {
                Err(NoMemory) => Err(unwritten(event, prepared)),
                Ok(outcome) => {
                    self.held.hold(&prepared, outcome);
                    let happened = Happened {
                        caller,
                        moment,
                        event,
                        outcome,
                        calls: self.journal.calls(),
                    };
                    let reply = note(&mut self.core, &mut self.events, prepared, happened);
                    Ok(Ended { outcome, reply })
                }
            },
        }
    }

    // Settles the entry in flight. Where a disk fails it stays in flight.
    pub(crate) fn settle<R: Wait>(&mut self, rt: &R, caller: u32, moment: Moment) -> Outcome
        requires flying { IsSome self.old.state.flight }
        requires no_earlier { self.old.state.greatest ≤ moment }
        ensures { Settles caller moment result self.old self.new }
    {
        histories_have_one_outcome();
        match find_out(&mut self.journal) {
            None => Outcome::Fault,
            Some(is_kept) => {
                show_settled(rt, &mut self.shown, is_kept);
                self.held.settle(is_kept);
                let calls = self.journal.calls();
                note_settling(
                    &mut self.core,
                    &mut self.events,
                    caller,
                    moment,
                    is_kept,
                    calls,
                );
                Outcome::Done
            }
        }
    }

    // Does what is due: reverts a missed deadline, or makes the scheduled commit whose time has come.
    fn do_due<R: Wait>(&mut self, rt: &R, caller: u32, moment: Moment, event: Event) -> Ticked
        requires due { IsDue event (waiting_of self.old.state moment) }
        requires no_earlier { self.old.state.greatest ≤ moment }
        ensures { DoesDue caller moment event result self.old self.new }
    {
        let done = done_as(&event);
        match self.carry_out(rt, caller, moment, event) {
            Err(NoMemory) => Ticked::NoMemory,
            Ok(ended) => match ended.outcome {
                Outcome::Done => done,
                Outcome::Fault => Ticked::DiskFault,
            },
        }
    }

    // After a settling: what is due is done.
    fn catch_up<R: Wait>(&mut self, rt: &R, caller: u32, moment: Moment) -> Ticked
        requires free { self.old.state.flight ≡ None }
        requires no_earlier { self.old.state.greatest ≤ moment }
        ensures { CatchesUp caller moment result self.old self.new }
    {
        match self.core.next(moment) {
            Need::Revert => self.do_due(rt, caller, moment, Event::Revert),
            Need::Carry => self.do_due(rt, caller, moment, Event::Carry),
            Need::Settle | Need::Nothing => Ticked::Settled,
        }
    }

    // Settles the entry in flight, and then does what is due.
    fn settle_first<R: Wait>(&mut self, rt: &R, caller: u32, moment: Moment) -> Ticked
        requires flying { IsSome self.old.state.flight }
        requires no_earlier { self.old.state.greatest ≤ moment }
        ensures { MakesWay caller moment result self.old self.new }
    {
        match self.settle(rt, caller, moment) {
            Outcome::Fault => Ticked::DiskFault,
            Outcome::Done => self.catch_up(rt, caller, moment),
        }
    }

    // Settles and does what is due, where that is needed.
    fn clear<R: Wait>(&mut self, rt: &R, caller: u32, moment: Moment) -> Ticked
        requires { self.old.state.greatest ≤ moment }
        ensures { MakesWay caller moment result self.old self.new }
    {
        match self.core.next(moment) {
            Need::Nothing => Ticked::Nothing,
            Need::Revert => self.do_due(rt, caller, moment, Event::Revert),
            Need::Carry => self.do_due(rt, caller, moment, Event::Carry),
            Need::Settle => self.settle_first(rt, caller, moment),
        }
    }

    /// Does what comes before a command at a moment. What could not be published before is published first.
    pub(crate) fn make_way<R: Wait>(&mut self, rt: &R, caller: u32, moment: Moment) -> Ticked
        requires { self.old.state.greatest ≤ moment }
        ensures way { MakesWay caller moment result self.old self.new }
        ensures shown { PublishesFirst (result ≡ Ticked.NoMemory) self.old self.new }
    {
        match publish_late(rt, &mut self.shown) {
            Err(NoMemory) => Ticked::NoMemory,
            Ok(()) => self.clear(rt, caller, moment),
        }
    }

    // Does a command that nothing comes before.
    fn command<R: Wait>(
        &mut self,
        rt: &R,
        caller: u32,
        moment: Moment,
        command: Command,
    ) -> Answered
        requires caller { (0 < caller) × (caller ≤ length self.old.users) }
        requires sound { IsSound command }
        requires clear { IsClear moment self.old }
        requires no_earlier { self.old.state.greatest ≤ moment }
        ensures { Takes caller moment command result
            (FaultOnEither (disks_of self.old.journal) (disks_of self.new.journal)) self.old self.new }
    {
        let place = self.events.len() as u64;
        match self.carry_out(rt, caller, moment, Event::Command(command)) {
            Err(NoMemory) => Answered::NoMemory,
            Ok(ended) => Answered::Kept {
                place,
                reply: ended.reply,
            },
        }
    }

    // A command while an entry is in flight.
    fn note_put_off(&mut self, caller: u32, moment: Moment, event: Event) -> Result<Reply, NoMemory>
        requires asks { is_command event ≡ true }
        requires fits { Fits self.old.state caller moment event }
        requires flying { IsSome self.old.state.flight }
        ensures ok { IfOk result (λ reply. Happens caller moment event Fault reply self.old self.new) }
        ensures err { OnErr result (self.new ≡ self.old) }
    {
        histories_have_one_outcome();
        // One place more for the settling.
        self.events.reserve(2)?;
        match self.core.prepare(caller, moment, &event) {
            Err(NoMemory) => Err(NoMemory),
            Ok(prepared) => {
                let happened = Happened {
                    caller,
                    moment,
                    event,
                    outcome: Outcome::Fault,
                    calls: self.journal.calls(),
                };
                Ok(note(&mut self.core, &mut self.events, prepared, happened))
            }
        }
    }

    // Answers a command that isn't done because an entry is in flight.
    fn put_off(&mut self, caller: u32, moment: Moment, command: Command) -> Answered
        requires caller { (0 < caller) × (caller ≤ length self.old.users) }
        requires sound { IsSound command }
        requires flying { IsSome self.old.state.flight }
        requires no_earlier { self.old.state.greatest ≤ moment }
        ensures { Takes caller moment command result (Unit {0}) self.old self.new }
    {
        let place = self.events.len() as u64;
        match self.note_put_off(caller, moment, Event::Command(command)) {
            Err(NoMemory) => Answered::NoMemory,
            Ok(reply) => Answered::Kept { place, reply },
        }
    }

    // Settles what is in flight before a command. Where a disk fails the command is put off, for which all is made ready before a
    // disk is called.
    fn settle_or_put_off<R: Wait>(
        &mut self,
        rt: &R,
        caller: u32,
        moment: Moment,
        event: Event,
    ) -> Result<Before, NoMemory>
        requires asks { is_command event ≡ true }
        requires fits { Fits self.old.state caller moment event }
        requires flying { IsSome self.old.state.flight }
        ensures ok { IfOk result (λ before. SettlesBefore caller moment event before self.old self.new) }
        ensures err { OnErr result (self.new ≡ self.old) }
    {
        histories_have_one_outcome();
        // One place more for the settling.
        self.events.reserve(2)?;
        match self.core.prepare(caller, moment, &event) {
            Err(NoMemory) => Err(NoMemory),
            Ok(prepared) => match find_out(&mut self.journal) {
                None => {
                    let happened = Happened {
                        caller,
                        moment,
                        event,
                        outcome: Outcome::Fault,
                        calls: self.journal.calls(),
                    };
                    let reply = note(&mut self.core, &mut self.events, prepared, happened);
                    Ok(Before::PutOff(reply))
                }
                Some(is_kept) => {
                    show_settled(rt, &mut self.shown, is_kept);
                    self.held.settle(is_kept);
                    let calls = self.journal.calls();
                    note_settling(
                        &mut self.core,
                        &mut self.events,
                        caller,
                        moment,
                        is_kept,
                        calls,
                    );
                    unneeded(prepared);
                    Ok(Before::Settled(event))
                }
            },
        }
    }

    // Answers a command with nothing in flight.
    fn answer_at_rest<R: Wait>(
        &mut self,
        rt: &R,
        caller: u32,
        moment: Moment,
        command: Command,
    ) -> Answered
        requires caller { (0 < caller) × (caller ≤ length self.old.users) }
        requires sound { IsSound command }
        requires free { self.old.state.flight ≡ None }
        requires no_earlier { self.old.state.greatest ≤ moment }
        ensures { Answers caller moment command result self.old self.new }
    {
        match self.catch_up(rt, caller, moment) {
            Ticked::NoMemory => Answered::NoMemory,
            Ticked::DiskFault => self.put_off(caller, moment, command),
            Ticked::Nothing | Ticked::Settled | Ticked::Reverted | Ticked::Carried => {
                self.command(rt, caller, moment, command)
            }
        }
    }

    // Answers a command while an entry is in flight. Where a disk fails it is put off.
    fn answer_in_flight<R: Wait>(
        &mut self,
        rt: &R,
        caller: u32,
        moment: Moment,
        command: Command,
    ) -> Answered
        requires caller { (0 < caller) × (caller ≤ length self.old.users) }
        requires sound { IsSound command }
        requires flying { IsSome self.old.state.flight }
        requires no_earlier { self.old.state.greatest ≤ moment }
        ensures { Answers caller moment command result self.old self.new }
    {
        let place = self.events.len() as u64;
        match self.settle_or_put_off(rt, caller, moment, Event::Command(command)) {
            Err(NoMemory) => Answered::NoMemory,
            Ok(Before::PutOff(reply)) => Answered::Kept { place, reply },
            Ok(Before::Settled(Event::Command(command))) => {
                self.answer_at_rest(rt, caller, moment, command)
            }
            Ok(Before::Settled(_)) => unreachable!(),
        }
    }

    // Answers a command, after what comes before it.
    fn answer<R: Wait>(&mut self, rt: &R, caller: u32, moment: Moment, command: Command) -> Answered
        requires caller { (0 < caller) × (caller ≤ length self.old.users) }
        requires sound { IsSound command }
        requires no_earlier { self.old.state.greatest ≤ moment }
        ensures { Answers caller moment command result self.old self.new }
    {
        match self.core.next(moment) {
            Need::Settle => self.answer_in_flight(rt, caller, moment, command),
            Need::Revert | Need::Carry | Need::Nothing => {
                self.answer_at_rest(rt, caller, moment, command)
            }
        }
    }

    /// Publishes what could not be published before, and then answers a command.
    pub(crate) fn publish_and_answer<R: Wait>(
        &mut self,
        rt: &R,
        caller: u32,
        moment: Moment,
        command: Command,
    ) -> Answered
        requires caller { (0 < caller) × (caller ≤ length self.old.users) }
        requires sound { IsSound command }
        requires no_earlier { self.old.state.greatest ≤ moment }
        ensures answers { Answers caller moment command result self.old self.new }
        ensures shown { PublishesFirst (result ≡ Answered.NoMemory) self.old self.new }
    {
        match publish_late(rt, &mut self.shown) {
            Err(NoMemory) => unasked(command),
            Ok(()) => self.answer(rt, caller, moment, command),
        }
    }
}

// What is reported of what is due, once it is done.
fn done_as(event: &Event) -> Ticked
    ensures { result ≡ due_as event.now Done }
{
    match event {
        Event::Carry => Ticked::Carried,
        Event::Revert | Event::Settle(_) | Event::Command(_) => Ticked::Reverted,
    }
}
