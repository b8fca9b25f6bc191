//! Steps of the machine.

ghost use Rattle.std.specs.Prelude.{◌≡◌, ◌<◌, ◌≤◌, ◌+◌, ◌++◌, ◌∷◌, [], IfOk, IfSome, IsSome};
ghost use Rattle.config_core.specs.declared.event.Event.TheVariants.{Settle};
ghost use Rattle.config_core.specs.declared.event.Outcome.TheVariants.{Done};
ghost use Rattle.config_core.specs.Machine.{Fits};
ghost use Rattle.config_core.specs.Plan.{ExpandsMade};
ghost use Rattle.config_core.specs.Prepared.{Follows, IsPrepared, IsSettling, applied, replied};
ghost use Rattle.config_db.specs.Moves.{IsSettledBy, noted};

use crate::answer::Answered;
use cfg_base::{Calls, Moment, NoMemory};
use cfg_tree::Full;
use commands::Command;
use config_core::{Core, Event, Outcome, Prepared, Reply};
use session_history::Happened;
use trace_list::Trace;

/// Makes a step ready, and hands out the expansion of the configuration that it commits, where its check has made it.
pub(crate) fn prepare(
    core: &Core,
    caller: u32,
    moment: Moment,
    event: &Event,
) -> Result<(Prepared, Option<Full>), NoMemory>
    requires { Fits core.now caller moment event.now }
    ensures ok { IfOk result (λ ready. IsPrepared core.now caller moment event.now ready.0) }
    ensures expansion { IfOk result (λ ready. IfSome ready.1 (ExpandsMade ready.0.effect)) }
{
    match core.prepare(caller, moment, event) {
        Err(NoMemory) => Err(NoMemory),
        Ok(mut prepared) => {
            let full = prepared.take_expansion();
            Ok((prepared, full))
        }
    }
}

/// Carries a prepared step out, and notes what happened.
pub(crate) fn note(
    core: &mut Core,
    events: &mut Trace<Happened>,
    prepared: Prepared,
    happened: Happened,
) -> Reply
    requires follows { Follows prepared core.old }
    requires room { 0 < events.old.spare }
    ensures state { core.new ≡ applied prepared happened.outcome core.old }
    ensures reply { result ≡ replied prepared.effect prepared.reply happened.outcome }
    ensures events { events.new.items ≡ events.old.items ++ happened ∷ [] }
    ensures spare { events.old.spare ≡ events.new.spare + 1 }
{
    let reply = core.accept(prepared, happened.outcome);
    events.note(happened);
    reply
}

/// The settling of what is in flight, made ready. It takes no memory.
pub(crate) fn settling(core: &Core, caller: u32, moment: Moment, event: &Event) -> Prepared
    requires fits { Fits core.now caller moment event.now }
    requires settles { IsSettling event.now }
    ensures { IsPrepared core.now caller moment event.now result }
{
    core.prepare(caller, moment, event).unwrap()
}

/// Carries the settling of what is in flight out, as it was found out, and notes it. It takes no memory.
pub(crate) fn note_settling(
    core: &mut Core,
    events: &mut Trace<Happened>,
    caller: u32,
    moment: Moment,
    is_kept: bool,
    calls: Calls,
)
    requires flying { IsSome core.old.flight }
    requires no_earlier { core.old.greatest ≤ moment }
    requires room { 0 < events.old.spare }
    ensures state { IsSettledBy caller moment is_kept core.old core.new }
    ensures events { events.new.items ≡ events.old.items ++ noted caller moment (Settle is_kept) Done calls ∷ [] }
{
    let event = Event::Settle(is_kept);
    let prepared = settling(core, caller, moment, &event);
    let happened = Happened {
        caller,
        moment,
        event,
        outcome: Outcome::Done,
        calls,
    };
    let_go(note(core, events, prepared, happened));
}

/// Lets go of a command for whose answer memory ran out.
pub(crate) fn unasked(_command: Command) -> Answered
    ensures { result ≡ Answered.NoMemory }
{
    Answered::NoMemory
}

/// Lets go of a step that isn't needed.
pub(crate) fn unneeded(_prepared: Prepared) {}

/// Lets go of a reply that nobody hears.
pub(crate) fn let_go(_reply: Reply) {}

/// Lets go of an event for whose record memory ran out.
pub(crate) fn unwritten(_event: Event, _prepared: Prepared) -> NoMemory {
    NoMemory
}
