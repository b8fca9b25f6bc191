//! Who may do what: the one place that asks for a session's mode, for the exclusive mode of another, for a scheduled commit, and
//! for changes that aren't committed.

ghost use Rattle.std.specs.Prelude.{◌≡◌, [], IfOk};
ghost use Rattle.std.specs.Option.{option_map};
ghost use Rattle.commands.specs.declared.command.Command.{Command};
ghost use Rattle.config_core.specs.Access.{bar_in, bar_to, is_of_mode, is_private, kept_bar, locked_by, wants_lock, wants_unmodified};
ghost use Rattle.config_core.specs.Machine.{later};
ghost use Rattle.config_core.specs.Callers.{IsCaller, holds};

use crate::core_state::Core;
use crate::reply::Refusal;
use cfg_base::{Moment, NoMemory, UserName};
use commands::{Command, Mode, When};

fn is_private(mode: Option<Mode>) -> bool
    ensures { result ≡ is_private mode }
{
    matches!(mode, Some(Mode::Private))
}

fn is_of_mode(command: &Command, mode: Option<Mode>) -> bool
    ensures { result ≡ is_of_mode command.now mode }
{
    match command {
        Command::Logout => true,
        Command::Configure(_)
        | Command::ShowActive { .. }
        | Command::ShowCommits
        | Command::ClearCommit => mode.is_none(),
        Command::Update => is_private(mode),
        _ => mode.is_some(),
    }
}

fn wants_lock(command: &Command, mode: Option<Mode>) -> bool
    ensures { result ≡ wants_lock command.now mode }
{
    match command {
        Command::Configure(Mode::Exclusive)
        | Command::CheckOnly
        | Command::Commit { .. }
        | Command::CommitAt { .. } => true,
        Command::Change(_) | Command::Load { .. } | Command::Rollback(_) => !is_private(mode),
        _ => false,
    }
}

fn wants_unmodified(command: &Command, mode: Option<Mode>) -> bool
    ensures { result ≡ wants_unmodified command.now mode }
{
    match command {
        Command::Configure(Mode::Private) | Command::Configure(Mode::Exclusive) => true,
        Command::Commit { .. } | Command::CommitAt { .. } => is_private(mode),
        _ => false,
    }
}

impl Core {
    /// Whether the caller is the one in exclusive mode.
    pub(crate) fn holds(&self, caller: u32) -> bool
        ensures { result ≡ holds self.now.exclusive caller }
    {
        match self.exclusive {
            Some(holder) => holder == caller,
            None => false,
        }
    }

    // The user of another session that is in exclusive mode.
    fn locked_by(&self, caller: u32) -> Option<&UserName>
        ensures { option_map (λ user. user.now) result ≡ locked_by self.now caller }
    {
        match self.exclusive {
            Some(holder) if holder != caller => Some(&self.callers[holder as usize - 1].user),
            _ => None,
        }
    }

    // What bars a commit at a later time: one that is scheduled, a run that isn't confirmed, or the time itself.
    fn later_bar(&self, when: When, moment: Moment) -> Option<Refusal>
        ensures { result ≡ kept_bar (Command.CommitAt when []) self.now.kept moment }
    {
        if let Some(waiting) = self.ledger.scheduled() {
            return Some(Refusal::Waiting(waiting.at));
        }
        if let Some(pending) = self.ledger.pending() {
            return Some(Refusal::Unconfirmed(pending.deadline));
        }
        let at = when.at(moment);
        if moment < at {
            None
        } else {
            Some(Refusal::NotLater { at, moment })
        }
    }

    // What the list of commits, and the moment, bar.
    fn kept_bar(&self, command: &Command, moment: Moment) -> Option<Refusal>
        ensures { result ≡ kept_bar command.now self.now.kept moment }
    {
        match command {
            Command::Commit { .. } => match self.ledger.scheduled() {
                Some(waiting) => Some(Refusal::Waiting(waiting.at)),
                None => None,
            },
            Command::CommitAt { when, comment: _ } => self.later_bar(*when, moment),
            Command::ClearCommit => match self.ledger.scheduled() {
                Some(_) => None,
                None => Some(Refusal::NothingWaits),
            },
            _ => None,
        }
    }

    // Why a caller that edits so may not ask a command.
    fn bar_in(
        &self,
        caller: u32,
        moment: Moment,
        command: &Command,
        mode: Option<Mode>,
    ) -> Result<Option<Refusal>, NoMemory>
        ensures { IfOk result (λ bar. bar ≡ bar_in (later self.now moment) caller command.now mode) }
    {
        if !is_of_mode(command, mode) {
            return Ok(Some(Refusal::WrongMode));
        }
        if wants_lock(command, mode)
            && let Some(user) = self.locked_by(caller)
        {
            return Ok(Some(Refusal::Locked(user.clone()?)));
        }
        if let Some(bar) = self.kept_bar(command, moment) {
            return Ok(Some(bar));
        }
        if wants_unmodified(command, mode) && self.shared.is_modified() {
            return Ok(Some(Refusal::Modified));
        }
        Ok(None)
    }

    /// Why a caller may not ask a command at a moment, whatever the command would do.
    pub(crate) fn bar_to(
        &self,
        caller: u32,
        moment: Moment,
        command: &Command,
    ) -> Result<Option<Refusal>, NoMemory>
        requires { IsCaller self.now caller }
        ensures { IfOk result (λ bar. bar ≡ bar_to (later self.now moment) caller command.now) }
    {
        self.bar_in(caller, moment, command, self.session(caller).mode)
    }
}
