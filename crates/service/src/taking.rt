//! One event of the machine in memory, where nothing is in flight.

ghost use Rattle.std.specs.Prelude.{◌≡◌, IfOk, OnErr, None};
ghost use Rattle.config_core.specs.Machine.{Fits};
ghost use Rattle.service.specs.Taking.{Happens};

use crate::closed::NO_CALLS;
use cfg_base::{Moment, NoMemory};
use config_core::{Core, Event, Outcome, Reply};
use session_history::Happened;
use trace_list::Trace;

/// Carries an event out, and puts it after the events.
pub(crate) fn take(
    core: &mut Core,
    events: &mut Trace<Happened>,
    caller: u32,
    moment: Moment,
    event: Event,
) -> Result<Reply, NoMemory>
    requires fits { Fits core.old caller moment event }
    requires free { core.old.flight ≡ None }
    ensures ok { IfOk result
        (λ reply. Happens caller moment event reply core.old core.new events.old.items events.new.items) }
    ensures err { OnErr result ((core.new ≡ core.old) × (events.new.items ≡ events.old.items)) }
{
    events.reserve(1)?;
    let prepared = core.prepare(caller, moment, &event)?;
    let reply = core.accept(prepared, Outcome::Done);
    events.note(Happened {
        caller,
        moment,
        event,
        outcome: Outcome::Done,
        calls: NO_CALLS,
    });
    Ok(reply)
}
