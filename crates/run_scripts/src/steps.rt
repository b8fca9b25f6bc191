//! Steps of four callers on one machine, with faults of its disk.

ghost use Rattle.std.specs.Prelude.{◌≡◌, ◌<◌, ◌≤◌, length, IfOk};
ghost use Rattle.commands.specs.Sound.{IsSound};
ghost use Rattle.config_core.specs.Machine.{Fits};
ghost use Rattle.config_core.specs.Prepared.{Follows};

use crate::line_calls::is_configuration;
use crate::replies::say_reply;
use cfg_base::{Bytes, Moment, Users};
use commands::Command;
use commit_ledger::{Commit, Ledger, Via};
use config_core::{Core, Event, Need, Outcome, Prepared, Reply};
use script_lines::{
    Arg, Fault, KeptText, Text, bytes_of, first_and_rest, number, say, say_bytes, say_counted,
    say_path, say_pending, small_number, user_of,
};
use shell_words::{Words0, read_line};
use std::alloc::Global;

/// The machine over the factory commit, for `alice`, `bob`, `carol` and `dave`.
#[derive(Drop)]
pub(crate) struct Machine {
    core: Core,
    ghost callers: { length core.callers ≡ 4 },
}

/// The caller of that number.
fn caller_of(number: &[u8]) -> Result<u32, Fault>
    ensures { IfOk result (λ caller. (0 < caller) × (caller ≤ 4)) }
{
    let caller = small_number(number)?;
    if caller == 0 || caller > 4 {
        return Err(Fault::Script("a caller is 1 to 4"));
    }
    Ok(caller)
}

/// A reply, where there is one.
fn say_answer(out: &mut Text, answer: Result<Reply, Fault>) -> Result<(), Fault> {
    match answer {
        Ok(reply) => {
            say_reply(out, &reply);
            Ok(())
        }
        Err(fault) => Err(fault),
    }
}

fn name_of(via: Via) -> &'static str {
    match via {
        Via::Cli => "cli",
        Via::Other => "other",
    }
}

/// The last commit of a list.
fn say_last(out: &mut Text, last: &Commit) {
    out.put("= last ");
    out.put_number(last.number);
    out.put(" via ");
    out.put(name_of(last.via));
    out.put(" at ");
    out.put_number(last.moment.seconds());
    out.put("\n");
    say_bytes(out, "user", last.user.as_word().as_bytes());
    say_counted(out, "statements", u64::from(last.tree.count()));
}

/// That moment, or the last event's where that is later.
fn later(core: &Core, moment: Moment) -> Moment
    ensures { core.now.greatest ≤ result }
{
    core.greatest().later(moment)
}

impl Machine {
    pub(crate) fn new(alloc: Global) -> Result<Machine, Fault> {
        let mut users = Users::new(alloc);
        users.push(user_of(alloc, b"alice")?)?;
        users.push(user_of(alloc, b"bob")?)?;
        users.push(user_of(alloc, b"carol")?)?;
        users.push(user_of(alloc, b"dave")?)?;
        Ok(Machine {
            core: Core::new(alloc, Ledger::factory(alloc)?, &users)?,
        })
    }

    fn accept(&mut self, prepared: Prepared, outcome: Outcome) -> Reply
        requires { Follows prepared self.old.core }
    {
        self.core.accept(prepared, outcome)
    }

    /// An event that is carried out.
    fn done(&mut self, caller: u32, moment: Moment, event: &Event) -> Result<Reply, Fault>
        requires { Fits self.old.core caller moment event.now }
    {
        let prepared = self.core.prepare(caller, moment, event)?;
        Ok(self.accept(prepared, Outcome::Done))
    }

    /// An event with which the disk fails.
    fn failed(&mut self, caller: u32, moment: Moment, event: &Event) -> Result<Reply, Fault>
        requires { Fits self.old.core caller moment event.now }
    {
        let prepared = self.core.prepare(caller, moment, event)?;
        Ok(self.accept(prepared, Outcome::Fault))
    }

    /// A command of which the entry fails.
    fn failed_entry(&mut self, caller: u32, moment: Moment, event: &Event) -> Result<Reply, Fault>
        requires { Fits self.old.core caller moment event.now }
    {
        let prepared = self.core.prepare(caller, moment, event)?;
        if prepared.entry().is_none() {
            return Err(Fault::Script("the command makes an entry"));
        }
        Ok(self.accept(prepared, Outcome::Fault))
    }

    /// The reply to a command that nothing comes before.
    fn ask(&mut self, caller: u32, moment: Moment, command: Command) -> Result<Reply, Fault>
        requires caller { (0 < caller) × (caller ≤ 4) }
        requires sound { IsSound command }
    {
        let moment = later(&self.core, moment);
        match self.core.next(moment) {
            Need::Nothing => self.done(caller, moment, &Event::Command(command)),
            Need::Settle => Err(Fault::Script("no entry is in flight")),
            Need::Revert => Err(Fault::Script("no deadline is due")),
            Need::Carry => Err(Fault::Script("no scheduled commit is due")),
        }
    }

    /// The reply to a command while the disk fails.
    fn ask_failing(&mut self, caller: u32, moment: Moment, command: Command) -> Result<Reply, Fault>
        requires caller { (0 < caller) × (caller ≤ 4) }
        requires sound { IsSound command }
    {
        let moment = later(&self.core, moment);
        match self.core.next(moment) {
            Need::Nothing => self.failed_entry(caller, moment, &Event::Command(command)),
            Need::Settle => self.failed(caller, moment, &Event::Command(command)),
            Need::Revert => Err(Fault::Script("no deadline is due")),
            Need::Carry => Err(Fault::Script("no scheduled commit is due")),
        }
    }

    fn settle(&mut self, moment: Moment, kept: bool) -> Result<Reply, Fault> {
        let moment = later(&self.core, moment);
        match self.core.next(moment) {
            Need::Settle => self.done(0, moment, &Event::Settle(kept)),
            Need::Revert | Need::Carry | Need::Nothing => {
                Err(Fault::Script("an entry is in flight"))
            }
        }
    }

    fn revert(&mut self, moment: Moment) -> Result<Reply, Fault> {
        let moment = later(&self.core, moment);
        match self.core.next(moment) {
            Need::Revert => self.done(0, moment, &Event::Revert),
            Need::Settle | Need::Carry | Need::Nothing => {
                Err(Fault::Script("a deadline is due"))
            }
        }
    }

    fn revert_failing(&mut self, moment: Moment) -> Result<Reply, Fault> {
        let moment = later(&self.core, moment);
        match self.core.next(moment) {
            Need::Revert => self.failed(0, moment, &Event::Revert),
            Need::Settle | Need::Carry | Need::Nothing => {
                Err(Fault::Script("a deadline is due"))
            }
        }
    }

    fn carry(&mut self, moment: Moment) -> Result<Reply, Fault> {
        let moment = later(&self.core, moment);
        match self.core.next(moment) {
            Need::Carry => self.done(0, moment, &Event::Carry),
            Need::Settle | Need::Revert | Need::Nothing => {
                Err(Fault::Script("a scheduled commit is due"))
            }
        }
    }

    fn carry_failing(&mut self, moment: Moment) -> Result<Reply, Fault> {
        let moment = later(&self.core, moment);
        match self.core.next(moment) {
            Need::Carry => self.failed(0, moment, &Event::Carry),
            Need::Settle | Need::Revert | Need::Nothing => {
                Err(Fault::Script("a scheduled commit is due"))
            }
        }
    }

    fn need(&self, moment: Moment) -> Need {
        self.core.next(later(&self.core, moment))
    }

    /// Rolls back what is due, or makes a scheduled commit that is due, and says so.
    fn make_due(&mut self, moment: Moment, out: &mut Text) -> Result<(), Fault> {
        match self.need(moment) {
            Need::Revert => {
                self.revert(moment)?;
                say(out, "reverted");
            }
            Need::Carry => {
                self.carry(moment)?;
                say(out, "carried");
            }
            Need::Settle | Need::Nothing => {}
        }
        Ok(())
    }

    /// A command, after what is due, and its reply.
    fn step(
        &mut self,
        caller: u32,
        moment: Moment,
        command: Command,
        out: &mut Text,
    ) -> Result<(), Fault>
        requires caller { (0 < caller) × (caller ≤ 4) }
        requires sound { IsSound command }
    {
        match self.make_due(moment, out) {
            Ok(()) => say_answer(out, self.ask(caller, moment, command)),
            Err(fault) => Err(fault),
        }
    }

    /// need SECONDS
    fn ask_need(&self, args: &[Arg], out: &mut Text) -> Result<(), Fault> {
        let [seconds] = args else {
            return Err(Fault::Script("need SECONDS"));
        };
        let moment = Moment::of(number(seconds)?);
        match self.need(moment) {
            Need::Settle => say(out, "settle"),
            Need::Revert => say(out, "revert"),
            Need::Carry => say(out, "carry"),
            Need::Nothing => say(out, "nothing"),
        }
        Ok(())
    }

    /// settle SECONDS kept|lost
    fn ask_settle(&mut self, args: &[Arg], out: &mut Text) -> Result<(), Fault> {
        let [seconds, end] = args else {
            return Err(Fault::Script("settle SECONDS kept|lost"));
        };
        let moment = Moment::of(number(seconds)?);
        match end.as_slice() {
            b"kept" => say_answer(out, self.settle(moment, true)),
            b"lost" => say_answer(out, self.settle(moment, false)),
            _ => Err(Fault::Script("settle SECONDS kept|lost")),
        }
    }

    /// revert SECONDS done|failing
    fn ask_revert(&mut self, args: &[Arg], out: &mut Text) -> Result<(), Fault> {
        let [seconds, end] = args else {
            return Err(Fault::Script("revert SECONDS done|failing"));
        };
        let moment = Moment::of(number(seconds)?);
        match end.as_slice() {
            b"done" => say_answer(out, self.revert(moment)),
            b"failing" => say_answer(out, self.revert_failing(moment)),
            _ => Err(Fault::Script("revert SECONDS done|failing")),
        }
    }

    /// carry SECONDS done|failing
    fn ask_carry(&mut self, args: &[Arg], out: &mut Text) -> Result<(), Fault> {
        let [seconds, end] = args else {
            return Err(Fault::Script("carry SECONDS done|failing"));
        };
        let moment = Moment::of(number(seconds)?);
        match end.as_slice() {
            b"done" => say_answer(out, self.carry(moment)),
            b"failing" => say_answer(out, self.carry_failing(moment)),
            _ => Err(Fault::Script("carry SECONDS done|failing")),
        }
    }

    /// level_of CALLER
    fn ask_level(&self, args: &[Arg], out: &mut Text) -> Result<(), Fault> {
        let [caller] = args else {
            return Err(Fault::Script("level_of CALLER"));
        };
        let caller = caller_of(caller)?;
        say_path(out, "level", self.core.level(caller));
        Ok(())
    }

    /// ledger: what is kept of the list of entries, and the greatest moment
    fn ask_ledger(&self, out: &mut Text) -> Result<(), Fault> {
        let ledger = self.core.ledger();
        say_counted(out, "entries", ledger.count());
        say_last(out, ledger.last());
        say_counted(out, "greatest", self.core.greatest().seconds());
        Ok(())
    }

    /// pending: the deadline of a commit confirmed, and the commit to which it goes back
    fn ask_pending(&self, out: &mut Text) -> Result<(), Fault> {
        match self.core.ledger().pending() {
            Some(pending) => say_pending(out, pending.target, pending.deadline),
            None => say(out, "none"),
        }
        Ok(())
    }

    /// machine: a new one
    fn renew(&mut self, alloc: Global) -> Result<(), Fault> {
        *self = Machine::new(alloc)?;
        Ok(())
    }

    /// Answers a look at the machine or an event that is no command, where the call is one.
    pub(crate) fn answer(
        &mut self,
        alloc: Global,
        call: &str,
        args: &[Arg],
        out: &mut Text,
    ) -> Option<Result<(), Fault>> {
        Some(match call {
            "machine" => self.renew(alloc),
            "level_of" => self.ask_level(args, out),
            "ledger" => self.ask_ledger(out),
            "pending" => self.ask_pending(out),
            "need" => self.ask_need(args, out),
            "settle" => self.ask_settle(args, out),
            "revert" => self.ask_revert(args, out),
            "carry" => self.ask_carry(args, out),
            _ => return None,
        })
    }
}

/// The command of a line; a load has the text that is kept, and none is kept then.
fn command_of(
    alloc: Global,
    configuring: bool,
    line: &[u8],
    kept: &mut KeptText,
) -> Result<Command, Fault>
    ensures { IfOk result IsSound }
{
    match read_line(alloc, configuring, line) {
        Ok(Some(Words0::Whole(command) | Words0::Synchronize(command))) => Ok(command),
        Ok(Some(Words0::NeedsText(way))) => Ok(Command::Load {
            way,
            text: Bytes::from(kept.take(alloc)),
        }),
        _ => Err(Fault::Script("the line of a step is a command")),
    }
}

/// step and failing_step CALLER SECONDS operational|configuration LINE, where the mode says how the line is read
pub(crate) fn ask_step(
    alloc: Global,
    machine: &mut Machine,
    kept: &mut KeptText,
    failing: bool,
    text: &str,
    out: &mut Text,
) -> Result<(), Fault> {
    let (caller, text) = first_and_rest(text);
    let (seconds, text) = first_and_rest(text);
    let (mode, line) = first_and_rest(text);
    let caller = caller_of(caller.as_bytes())?;
    let moment = Moment::of(number(seconds.as_bytes())?);
    let configuring = is_configuration(mode)?;
    let line = bytes_of(alloc, line)?;
    let command = command_of(alloc, configuring, &line, kept)?;
    if failing {
        return say_answer(out, machine.ask_failing(caller, moment, command));
    }
    machine.step(caller, moment, command, out)
}
