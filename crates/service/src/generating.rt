//! The mode that makes a configuration of so many interfaces: it is loaded and committed by the machine in memory.

ghost use Rattle.std.specs.Prelude.{◌≡◌, ◌<◌, [], IfOk, OnOk, IsOk, IsTrue, None, Some, false, length};
ghost use Rattle.commands.specs.Sound.{IsSound};
ghost use Rattle.commands.specs.declared.command.Command.TheVariants.{Configure, Load, Commit};
ghost use Rattle.commands.specs.declared.command.LoadWay.TheVariants.{Override};
ghost use Rattle.commands.specs.declared.command.Mode.TheVariants.{Shared};
ghost use Rattle.config_core.specs.Callers.{IsCaller};
ghost use Rattle.config_core.specs.declared.reply.Reply.TheVariants.{Entered, Loaded, Committed};
ghost use Rattle.commit_ledger.specs.Kept.{factory};
ghost use Rattle.service.specs.Generating.{Generates, IsToldOf, IsDone, IsGenerated, IsMadeFor};

use crate::closed::NO_CALLS;
use crate::taking::take;
use cfg_base::{Bytes, NoMemory, Users, Word};
use commands::{Command, LoadWay, Mode};
use commit_check::{accepted_configurations_fit, check};
use commit_ledger::Ledger;
use config_core::{Core, Event, Need, Reply};
use curly_print::text_len;
use modes::{configuration_text, gen_text};
use session_history::{Happened, History};
use std::alloc::Global;
use trace_list::Trace;

/// What happened, and what is reported of it.
pub(crate) struct Generated {
    pub history: History,
    pub text: Bytes,
}

/// Asks a command of the first caller, where nothing comes before it.
fn ask(core: &mut Core, events: &mut Trace<Happened>, command: Command) -> Result<Reply, NoMemory>
    requires caller { IsCaller core.old 1 }
    requires free { core.old.flight ≡ None }
    requires sound { IsSound command }
    ensures { IfOk result (λ reply. IsDone command reply core.old core.new events.old.items events.new.items) }
{
    let moment = core.greatest();
    match core.next(moment) {
        Need::Nothing => take(core, events, 1, moment, Event::Command(command)),
        Need::Settle | Need::Revert | Need::Carry => Err(NoMemory),
    }
}

fn was_entered(reply: Reply) -> bool
    ensures { IsTrue result → reply ≡ Entered Shared }
{
    matches!(reply, Reply::Entered(Mode::Shared))
}

fn was_loaded(reply: Reply) -> bool
    ensures { IsTrue result → reply ≡ Loaded }
{
    matches!(reply, Reply::Loaded)
}

fn was_committed(reply: Reply) -> bool
    ensures { IsTrue result → reply ≡ Committed 0 false }
{
    matches!(
        reply,
        Reply::Committed {
            minutes: 0,
            quit: false
        }
    )
}

/// A command has its reply. Nothing refuses what is asked here, which tests alone show; a refusal would count as want of memory.
fn expect(is_replied: bool) -> Result<(), NoMemory>
    ensures { IsOk result → IsTrue is_replied }
{
    if is_replied { Ok(()) } else { Err(NoMemory) }
}

fn enter(core: &mut Core, events: &mut Trace<Happened>) -> Result<(), NoMemory>
    requires caller { IsCaller core.old 1 }
    requires free { core.old.flight ≡ None }
    ensures { OnOk result
        (IsDone (Configure Shared) (Entered Shared) core.old core.new events.old.items events.new.items) }
{
    let reply = ask(core, events, Command::Configure(Mode::Shared))?;
    expect(was_entered(reply))
}

fn load(core: &mut Core, events: &mut Trace<Happened>, text: Bytes) -> Result<(), NoMemory>
    requires caller { IsCaller core.old 1 }
    requires free { core.old.flight ≡ None }
    ensures { OnOk result (IsDone (Load Override text) Loaded core.old core.new events.old.items events.new.items) }
{
    let way = LoadWay::Override;
    let reply = ask(core, events, Command::Load { way, text })?;
    expect(was_loaded(reply))
}

fn commit(core: &mut Core, events: &mut Trace<Happened>, comment: Word) -> Result<(), NoMemory>
    requires caller { IsCaller core.old 1 }
    requires free { core.old.flight ≡ None }
    requires none { comment ≡ [] }
    ensures { OnOk result
        (IsDone (Commit 0 [] false) (Committed 0 false) core.old core.new events.old.items events.new.items) }
{
    let command = Command::Commit {
        minutes: 0,
        comment,
        quit: false,
    };
    let reply = ask(core, events, command)?;
    expect(was_committed(reply))
}

/// What is reported of the active configuration.
fn counted(alloc: Global, ledger: &Ledger) -> Result<Bytes, NoMemory>
    ensures { IfOk result (IsToldOf ledger.now) }
{
    accepted_configurations_fit();
    let tree = ledger.active();
    let full = match check(alloc, tree) {
        Ok(full) => full,
        Err(_) => return Err(NoMemory),
    };
    gen_text(
        alloc,
        tree.count(),
        full.count(),
        text_len(tree),
        ledger.kept(),
    )
}

/// Enters, loads the configuration of so many interfaces, and commits it.
fn make(
    alloc: Global,
    core: &mut Core,
    events: &mut Trace<Happened>,
    count: u64,
) -> Result<(), NoMemory>
    requires caller { IsCaller core.old 1 }
    requires free { core.old.flight ≡ None }
    ensures { OnOk result (Generates count core.old core.new events.old.items events.new.items) }
{
    let text = configuration_text(alloc, count)?;
    enter(core, events)?;
    load(core, events, text)?;
    commit(core, events, Word::empty(alloc))
}

/// Makes the configuration of so many interfaces in the place of the factory's, and gives what is reported of it.
fn told(
    alloc: Global,
    users: &Users,
    events: &mut Trace<Happened>,
    count: u64,
) -> Result<Bytes, NoMemory>
    requires some { 0 < length users.now }
    requires none { events.old.items ≡ [] }
    ensures { IfOk result (IsMadeFor count users.now events.new.items) }
{
    let ledger = Ledger::factory(alloc)?;
    let mut core = Core::new(alloc, ledger, users)?;
    make(alloc, &mut core, events, count)?;
    counted(alloc, core.ledger())
}

/// The history of events over the factory commit.
fn history_of(alloc: Global, users: Users, events: Trace<Happened>) -> Result<History, NoMemory>
    ensures opening { IfOk result (λ history. history.opening ≡ Some factory) }
    ensures users { IfOk result (λ history. history.users ≡ users) }
    ensures no_calls { IfOk result (λ history. history.made ≡ record { a = 0; b = 0 }) }
    ensures events { IfOk result (λ history. history.events ≡ events) }
{
    Ok(History {
        opening: Some(Ledger::factory(alloc)?),
        users,
        made: NO_CALLS,
        events,
    })
}

/// What happens in mode `gen`, and what is reported of it.
pub(crate) fn generate(
    alloc: Global,
    count: u64,
    users: Users,
    keeps: bool,
) -> Result<Generated, NoMemory>
    requires { 0 < length users }
    ensures { IfOk result (λ made. IsGenerated count users made.history made.text) }
{
    let mut events = Trace::new(alloc, keeps);
    let text = told(alloc, &users, &mut events, count)?;
    let history = history_of(alloc, users, events)?;
    Ok(Generated { history, text })
}
