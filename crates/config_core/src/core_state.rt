ghost use Rattle.std.specs.Prelude.{◌≡◌, map, IfOk, IsOk, None};
ghost use Rattle.config_core.specs.State.{nothing_own, opening_of, operational};
ghost use Rattle.config_core.specs.Access.{bar_to};
ghost use Rattle.config_core.specs.Callers.{IsCaller, caller_of, level_of};
ghost use Rattle.config_core.specs.Serving.{Does, Serves};
ghost use Rattle.config_core.specs.Machine.{Fits, later, waiting_of};
ghost use Rattle.config_core.specs.Prepared.{IsPrepared, Prepares, need_in, put_off, IsSettling};

use crate::caller::Caller;
use crate::effect::{Appending, Effect};
use crate::event::{Event, Need};
use crate::own::fresh_of;
use crate::position::Position;
use crate::prepared::{Prepared, refused, step};
use crate::reply::{Refusal, Reply};
use candidate::Candidate;
use cfg_base::{Moment, NoMemory, Path, UserName, Users};
use commands::Command;
use commit_ledger::Ledger;
use kept_expansion::Expanded;
use std::alloc::Global;
use std::marker::Model;

/// The state of the machine.
#[derive(Debug, Drop)]
pub struct Core {
    pub(crate) alloc: Global,
    pub(crate) ledger: Ledger,
    /// The candidate of the sessions that edit together or alone.
    pub(crate) shared: Candidate,
    /// The candidates of the sessions in private mode, a place for each session.
    pub(crate) own: Vec<Option<Candidate>>,
    /// The session that is in exclusive mode.
    pub(crate) exclusive: Option<u32>,
    pub(crate) callers: Vec<Caller>,
    pub(crate) flight: Option<Appending>,
    pub(crate) greatest: Moment,
    /// The configuration that was checked last, with its expansion. The next one to be checked mostly follows it in little.
    pub(crate) last: Option<Expanded>,
}

impl Model for Core {
    ghost use Rattle.std.specs.Prelude.{◌≡◌, ◌<◌, ◌≤◌, IfSome, vec_len};
    ghost use Rattle.std.specs.Option.{option_map};
    ghost use Rattle.std.specs.Coded.{codes};
    ghost use Rattle.cfg_tree.specs.Statements.{statements_code};
    ghost use Rattle.config_core.specs.Plan.{made_of};
    ghost use Rattle.config_core.specs.Prepared.{IsReady};
    ghost use Rattle.config_core.specs.State.{State};

    ghost Value = { State };

    ghost coded = { Prim.hlevel (codes, statements_code) };

    ghost view = { λ c. record {
      kept = c.ledger;
      shared = c.shared;
      own = c.own.items;
      exclusive = c.exclusive;
      callers = c.callers.items;
      flight = option_map made_of c.flight;
      greatest = c.greatest;
    } };

    ghost invariant = { λ c. IfSome c.flight (IsReady c.ledger) × IfSome c.exclusive (λ holder. (0 < holder) × (holder ≤ vec_len c.callers))
        × (vec_len c.own ≡ vec_len c.callers) };
}

fn callers_of(alloc: Global, users: &[UserName]) -> Result<Vec<Caller>, NoMemory>
    ensures { IfOk result (λ callers. callers.items ≡ map operational users.now) }
{
    let mut callers = Vec::new(alloc);
    for user in users {
        callers.push(Caller {
            user: user.clone()?,
            mode: None,
            position: Position::top(alloc),
        })?;
    }
    Ok(callers)
}

fn nothing_own(alloc: Global, users: &[UserName]) -> Result<Vec<Option<Candidate>>, NoMemory>
    ensures { IfOk result (λ own. own.items ≡ map nothing_own users.now) }
{
    let mut own = Vec::new(alloc);
    for _user in users {
        own.push(None)?;
    }
    Ok(own)
}

impl Core {
    /// The machine over that list of entries, with these users' sessions in operational mode.
    pub fn new(alloc: Global, ledger: Ledger, users: &Users) -> Result<Core, NoMemory>
        ensures { IfOk result (λ core. core ≡ opening_of ledger users.now) }
    {
        let callers = callers_of(alloc, users.as_slice())?;
        let own = nothing_own(alloc, users.as_slice())?;
        let shared = fresh_of(ledger.last())?;
        let greatest = ledger.moment();
        Ok(Core {
            alloc,
            ledger,
            shared,
            own,
            exclusive: None,
            callers,
            flight: None,
            greatest,
            last: None,
        })
    }

    /// The greatest moment of an event.
    pub fn greatest(&self) -> Moment
        ensures { result ≡ self.now.greatest }
    {
        self.greatest
    }

    /// The list of entries.
    pub fn ledger(&self) -> &Ledger
        ensures { result.now ≡ self.now.kept }
    {
        &self.ledger
    }

    /// The level at which a caller stands.
    pub fn level(&self, caller: u32) -> &Path
        requires { IsCaller self.now caller }
        ensures { result.now ≡ level_of self.now caller }
    {
        self.session(caller).position.level()
    }

    /// What comes before the next command, at a moment.
    pub fn next(&self, moment: Moment) -> Need
        ensures { result ≡ need_in (waiting_of self.now moment) }
    {
        if self.flight.is_some() {
            return Need::Settle;
        }
        if self.ledger.is_revert_due(moment) {
            return Need::Revert;
        }
        match self.ledger.ready(moment) {
            Some(_) => Need::Carry,
            None => Need::Nothing,
        }
    }

    /// Makes a step ready, with all the memory that it takes, and changes nothing. A settling takes none.
    pub fn prepare(&self, caller: u32, moment: Moment, event: &Event) -> Result<Prepared, NoMemory>
        requires { Fits self.now caller moment event.now }
        ensures ok { IfOk result (IsPrepared self.now caller moment event.now) }
        ensures settles { IsSettling event.now → IsOk result }
    {
        match event {
            Event::Settle(is_kept) => {
                Ok(step(caller, moment, Effect::Settle(*is_kept), Reply::Done))
            }
            Event::Revert => self.prepare_revert(caller, moment),
            Event::Carry => self.prepare_carry(caller, moment),
            Event::Command(command) => {
                if self.flight.is_some() {
                    return self.prepare_put_off(caller, moment, command);
                }
                self.prepare_command(caller, moment, command)
            }
        }
    }

    // A command that nothing comes before.
    fn prepare_command(
        &self,
        caller: u32,
        moment: Moment,
        command: &Command,
    ) -> Result<Prepared, NoMemory>
        requires { IsCaller self.now caller }
        ensures { IfOk result (Prepares self.now moment (Serves (later self.now moment) caller command.now)) }
    {
        match self.bar_to(caller, moment, command)? {
            Some(refusal) => Ok(refused(caller, moment, refusal)),
            None => self.prepare_unbarred(caller, moment, command),
        }
    }

    // A command that nothing bars.
    fn prepare_unbarred(
        &self,
        caller: u32,
        moment: Moment,
        command: &Command,
    ) -> Result<Prepared, NoMemory>
        requires caller { IsCaller self.now caller }
        requires unbarred { bar_to (later self.now moment) caller command.now ≡ None }
        ensures { IfOk result (Prepares self.now moment (Does (later self.now moment) caller command.now)) }
    {
        match command {
            Command::Configure(mode) => self.prepare_configure(caller, moment, *mode),
            Command::ShowActive { words, form } => {
                self.prepare_show_active(caller, moment, words, *form)
            }
            Command::ShowCommits => self.prepare_show_commits(caller, moment),
            Command::ClearCommit => self.prepare_clear_commit(caller, moment),
            Command::Logout => self.prepare_logout(caller, moment),
            Command::Edit(words) => self.prepare_edit(caller, moment, words),
            Command::Up(count) => self.prepare_up(caller, moment, *count),
            Command::Top => Ok(self.prepare_top(caller, moment)),
            Command::Exit => self.prepare_exit(caller, moment),
            Command::ExitAll => self.prepare_exit_all(caller, moment),
            Command::Show { words, form } => self.prepare_show(caller, moment, words, *form),
            Command::Change(op) => self.prepare_change(caller, moment, op),
            Command::Load { way, text } => self.prepare_load(caller, moment, *way, text),
            Command::Rollback(n) => self.prepare_rollback(caller, moment, *n),
            Command::CheckOnly => self.prepare_check(caller, moment),
            Command::Commit {
                minutes,
                comment,
                quit,
            } => self.prepare_commit(caller, moment, *minutes, comment, *quit),
            Command::CommitAt { when, comment } => {
                self.prepare_commit_at(caller, moment, *when, comment)
            }
            Command::Update => self.prepare_update(caller, moment),
            Command::Status => self.prepare_status(caller, moment),
        }
    }

    // While an entry is in flight nothing is done, but that a logout leaves the mode.
    fn prepare_put_off(
        &self,
        caller: u32,
        moment: Moment,
        command: &Command,
    ) -> Result<Prepared, NoMemory>
        ensures { IfOk result (λ plan. plan ≡ put_off self.now caller moment command.now) }
    {
        let effect = if matches!(command, Command::Logout) {
            Effect::Leave(self.fresh_for(caller)?)
        } else {
            Effect::Stay
        };
        Ok(step(caller, moment, effect, Reply::Refused(Refusal::DiskFault)))
    }

    pub(crate) fn session(&self, caller: u32) -> &Caller
        requires { IsCaller self.now caller }
        ensures { result.now ≡ caller_of self.now caller }
    {
        &self.callers[caller as usize - 1]
    }
}
