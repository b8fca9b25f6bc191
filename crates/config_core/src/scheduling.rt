//! Commits that are set for a later time: how they are scheduled and called off, and what they do when it has come.

ghost use Rattle.std.specs.Prelude.{◌≡◌, IsSome, IfOk, IfSome, None};
ghost use Rattle.commands.specs.When.{at_of};
ghost use Rattle.commands.specs.declared.command.Command.{Command};
ghost use Rattle.commit_ledger.specs.Kept.{ready_in};
ghost use Rattle.config_core.specs.declared.event.Outcome.{Outcome};
ghost use Rattle.config_core.specs.Callers.{IsCaller};
ghost use Rattle.config_core.specs.Machine.{later, Carries};
ghost use Rattle.config_core.specs.Prepared.{Prepares};
ghost use Rattle.config_core.specs.Serving.{Does, Checks, set_for};

use crate::core_state::Core;
use crate::effect::{Effect, Maker};
use crate::prepared::{Prepared, step};
use crate::reply::Reply;
use cfg_base::{Moment, NoMemory, Word};
use cfg_tree::Tree;
use commands::When;
use commit_check::check_after;
use commit_ledger::{Cleared, Entry, Scheduled};
use kept_expansion::Expanded;
use private_merge::merge;

impl Core {
    // The commit of a configuration that is accepted, for a later time.
    fn set_for(
        &self,
        caller: u32,
        moment: Moment,
        tree: &Tree,
        when: When,
        comment: &Word,
    ) -> Result<Prepared, NoMemory>
        requires caller { IsCaller self.now caller }
        requires no_run { self.now.kept.pending ≡ None }
        ensures { IfOk result (Prepares self.now moment (λ turned. turned ≡ set_for (later self.now moment) caller tree.now (at_of when moment) comment.now)) }
    {
        let at = when.at(moment);
        let waiting = Scheduled {
            number: self.ledger.last().number + 1,
            user: self.session(caller).user.clone()?,
            moment,
            at,
            comment: comment.clone()?,
            tree: tree.copy()?,
        };
        self.made(
            caller,
            moment,
            Entry::Scheduled(waiting),
            false,
            Reply::Scheduled(at),
        )
    }

    // The same, with the configuration that was checked.
    fn set_for_with(
        &self,
        caller: u32,
        moment: Moment,
        tree: &Tree,
        expanded: Expanded,
        when: When,
        comment: &Word,
    ) -> Result<Prepared, NoMemory>
        requires caller { IsCaller self.now caller }
        requires no_run { self.now.kept.pending ≡ None }
        ensures { IfOk result (Prepares self.now moment (λ turned. turned ≡ set_for (later self.now moment) caller tree.now (at_of when moment) comment.now)) }
    {
        match self.set_for(caller, moment, tree, when, comment) {
            Ok(prepared) => Ok(prepared.with_checked(expanded)),
            Err(NoMemory) => Err(NoMemory),
        }
    }

    fn scheduled_of(
        &self,
        caller: u32,
        moment: Moment,
        tree: &Tree,
        when: When,
        comment: &Word,
    ) -> Result<Prepared, NoMemory>
        requires caller { IsCaller self.now caller }
        requires no_run { self.now.kept.pending ≡ None }
        ensures { IfOk result (Prepares self.now moment (λ turned. Checks (later self.now moment) tree.now turned
            (set_for (later self.now moment) caller tree.now (at_of when moment) comment.now))) }
    {
        match check_after(self.alloc, tree, &self.last) {
            Ok(expanded) => self.set_for_with(caller, moment, tree, expanded, when, comment),
            Err(fault) => self.broken(caller, moment, tree, fault),
        }
    }

    /// Sets a commit for a later time.
    pub(crate) fn prepare_commit_at(
        &self,
        caller: u32,
        moment: Moment,
        when: When,
        comment: &Word,
    ) -> Result<Prepared, NoMemory>
        requires caller { IsCaller self.now caller }
        requires no_run { self.now.kept.pending ≡ None }
        ensures { IfOk result (Prepares self.now moment (Does (later self.now moment) caller (Command.CommitAt when comment.now))) }
    {
        let Some(own) = self.own(caller) else {
            return self.scheduled_of(caller, moment, self.shared.tree(), when, comment);
        };
        match merge(
            self.alloc,
            own.base_tree(),
            self.ledger.active(),
            own.tree(),
        ) {
            Ok(merged) => self.scheduled_of(caller, moment, &merged, when, comment),
            Err(fault) => self.unmerged(caller, moment, own, fault),
        }
    }

    /// Calls the scheduled commit off.
    pub(crate) fn prepare_clear_commit(
        &self,
        caller: u32,
        moment: Moment,
    ) -> Result<Prepared, NoMemory>
        requires { IsCaller self.now caller }
        ensures { IfOk result (Prepares self.now moment (Does (later self.now moment) caller Command.ClearCommit)) }
    {
        let cleared = Cleared {
            number: self.ledger.last().number + 1,
            user: self.session(caller).user.clone()?,
            moment,
        };
        self.made(
            caller,
            moment,
            Entry::Cleared(cleared),
            false,
            Reply::ClearedCommit,
        )
    }

    // What a scheduled commit does whose time has come.
    fn carried(
        &self,
        caller: u32,
        moment: Moment,
        waiting: &Scheduled,
    ) -> Result<Prepared, NoMemory>
        requires { IsSome self.now.kept.scheduled }
        ensures { IfOk result (Prepares self.now moment (Carries (later self.now moment) waiting.now Outcome.Done)) }
    {
        let _ = self.ledger.scheduled();
        let _ = self.ledger.last();
        let same = self.shared.tree().same(&waiting.tree);
        let commit = self.ledger.carry(waiting, moment)?;
        let appending = self.appending(Entry::Commit(commit), Maker::Schedule { same }, false)?;
        Ok(step(caller, moment, Effect::Append(appending), Reply::Done))
    }

    /// The same of the one that is ready.
    pub(crate) fn prepare_carry(&self, caller: u32, moment: Moment) -> Result<Prepared, NoMemory>
        requires { IsSome (ready_in self.now.kept moment) }
        ensures { IfOk result (λ plan. IfSome (ready_in self.now.kept moment) (λ waiting.
            Prepares self.now moment (Carries (later self.now moment) waiting Outcome.Done) plan)) }
    {
        match self.ledger.ready(moment) {
            Some(waiting) => self.carried(caller, moment, waiting),
            None => unreachable!(),
        }
    }
}
