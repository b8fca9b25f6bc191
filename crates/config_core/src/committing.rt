//! Commits, their check and their confirmation, and what a missed deadline commits.

ghost use Rattle.std.specs.Prelude.{◌≡◌, IsSome, IfOk};
ghost use Rattle.std.specs.Option.{option_map};
ghost use Rattle.cfg_base.specs.Kind.{IsName};
ghost use Rattle.commit_check.specs.Accepts.{IsCheckFault};
ghost use Rattle.commit_ledger.specs.Kept.{append_entry, HasOneWaiting, NumberFits, RoomFor, revert_of};
ghost use Rattle.config_core.specs.declared.effect.Appending.{Appending};
ghost use Rattle.commands.specs.declared.command.Command.{Command};
ghost use Rattle.config_core.specs.Callers.{IsCaller};
ghost use Rattle.config_core.specs.Entries.{commit_of, confirm_of, fresh_in};
ghost use Rattle.config_core.specs.Serving.{Does, BreaksRule, Checks, checked, committed, makes};
ghost use Rattle.config_core.specs.Machine.{later, reverted};
ghost use Rattle.config_core.specs.Prepared.{Prepares, IsReady, twice};

use crate::core_state::Core;
use crate::effect::{Appending, Effect, Fresh, Maker};
use crate::own::fresh_of;
use crate::prepared::{Prepared, refused, step};
use crate::reply::{Refusal, Reply};
use cfg_base::{Moment, NoMemory, Word};
use cfg_tree::Tree;
use commit_check::{CheckFault, accepted_configurations_fit, check_after};
use commit_ledger::{Commit, Confirm, Entry, MAX_ENTRIES, Via};
use kept_expansion::Expanded;
use private_merge::merge;

// The candidate of a commit, for the sessions that share theirs and for the one that commits.
fn fresh_in(entry: &Entry) -> Result<Option<Fresh>, NoMemory>
    ensures { IfOk result (λ fresh. fresh ≡ option_map twice (fresh_in entry.now)) }
{
    match entry {
        Entry::Commit(commit) => {
            let shared = fresh_of(commit)?;
            let own = fresh_of(commit)?;
            Ok(Some(Fresh { shared, own }))
        }
        Entry::Confirm(_) | Entry::Scheduled(_) | Entry::Cleared(_) => Ok(None),
    }
}

impl Core {
    // An entry with all the memory that it takes to be appended.
    pub(crate) fn appending(
        &self,
        entry: Entry,
        maker: Maker,
        quit: bool,
    ) -> Result<Appending, NoMemory>
        requires number { NumberFits self.now.kept entry }
        requires room { RoomFor self.now.kept entry }
        requires one { HasOneWaiting (append_entry self.now.kept entry) }
        ensures ready { IfOk result (IsReady self.now.kept) }
        ensures is { IfOk result (λ a. (a.ready.entry ≡ entry) × (a.maker ≡ maker) × (a.quit ≡ quit)) }
    {
        let fresh = fresh_in(&entry)?;
        let ready = self.ledger.prepare(entry)?;
        Ok(Appending {
            ready,
            fresh,
            maker,
            quit,
        })
    }

    // An entry that a command makes, unless the list is full.
    pub(crate) fn made(
        &self,
        caller: u32,
        moment: Moment,
        entry: Entry,
        quit: bool,
        reply: Reply,
    ) -> Result<Prepared, NoMemory>
        requires caller { IsCaller self.now caller }
        requires number { NumberFits self.now.kept entry }
        requires one { HasOneWaiting (append_entry self.now.kept entry) }
        ensures { IfOk result (Prepares self.now moment (λ turned. turned ≡ makes (later self.now moment) caller entry quit reply)) }
    {
        if self.ledger.count() >= MAX_ENTRIES {
            return Ok(refused(caller, moment, Refusal::Exhausted));
        }
        let appending = self.appending(entry, Maker::Command(caller), quit)?;
        Ok(step(caller, moment, Effect::Append(appending), reply))
    }

    // The refusal of a configuration that breaks a rule.
    pub(crate) fn broken(
        &self,
        caller: u32,
        moment: Moment,
        tree: &Tree,
        fault: CheckFault,
    ) -> Result<Prepared, NoMemory>
        requires { IsCheckFault tree.now fault }
        ensures { IfOk result (Prepares self.now moment (BreaksRule (later self.now moment) tree.now)) }
    {
        match fault {
            CheckFault::Rule { number, path } => {
                Ok(refused(caller, moment, Refusal::Check { number, path }))
            }
            CheckFault::NoMemory => Err(NoMemory),
        }
    }

    // What the check of an accepted configuration does.
    fn checked(&self, caller: u32, moment: Moment) -> Result<Prepared, NoMemory>
        requires { IsCaller self.now caller }
        ensures { IfOk result (Prepares self.now moment (λ turned. turned ≡ checked (later self.now moment) caller self.now.kept.pending)) }
    {
        if self.ledger.pending().is_none() {
            return Ok(step(caller, moment, Effect::Stay, Reply::Checked));
        }
        let confirm = Confirm {
            number: self.ledger.last().number,
            user: self.session(caller).user.clone()?,
            moment,
        };
        self.made(
            caller,
            moment,
            Entry::Confirm(confirm),
            false,
            Reply::Checked,
        )
    }

    // The same, with the expansion that the check has made.
    fn checked_with(
        &self,
        caller: u32,
        moment: Moment,
        expanded: Expanded,
    ) -> Result<Prepared, NoMemory>
        requires { IsCaller self.now caller }
        ensures { IfOk result (Prepares self.now moment (λ turned. turned ≡ checked (later self.now moment) caller self.now.kept.pending)) }
    {
        match self.checked(caller, moment) {
            Ok(prepared) => Ok(prepared.with_checked(expanded)),
            Err(NoMemory) => Err(NoMemory),
        }
    }

    fn check_of(&self, caller: u32, moment: Moment, tree: &Tree) -> Result<Prepared, NoMemory>
        requires { IsCaller self.now caller }
        ensures { IfOk result (Prepares self.now moment (λ turned. Checks (later self.now moment) tree.now turned
            (checked (later self.now moment) caller self.now.kept.pending))) }
    {
        match check_after(self.alloc, tree, &self.last) {
            Ok(expanded) => self.checked_with(caller, moment, expanded),
            Err(fault) => self.broken(caller, moment, tree, fault),
        }
    }

    pub(crate) fn prepare_check(&self, caller: u32, moment: Moment) -> Result<Prepared, NoMemory>
        requires { IsCaller self.now caller }
        ensures { IfOk result (Prepares self.now moment (Does (later self.now moment) caller Command.CheckOnly)) }
    {
        let Some(own) = self.own(caller) else {
            return self.check_of(caller, moment, self.shared.tree());
        };
        match merge(
            self.alloc,
            own.base_tree(),
            self.ledger.active(),
            own.tree(),
        ) {
            Ok(merged) => self.check_of(caller, moment, &merged),
            Err(fault) => self.unmerged(caller, moment, own, fault),
        }
    }

    // The commit of a configuration that is accepted.
    fn committed(
        &self,
        caller: u32,
        moment: Moment,
        tree: &Tree,
        minutes: u32,
        comment: &Word,
        quit: bool,
    ) -> Result<Prepared, NoMemory>
        requires { IsCaller self.now caller }
        ensures { IfOk result (Prepares self.now moment (λ turned. turned
            ≡ committed (later self.now moment) caller tree.now minutes comment.now quit)) }
    {
        let commit = Commit {
            number: self.ledger.last().number + 1,
            user: self.session(caller).user.clone()?,
            via: Via::Cli,
            moment,
            comment: comment.clone()?,
            tree: tree.copy()?,
            minutes,
        };
        let reply = Reply::Committed { minutes, quit };
        self.made(caller, moment, Entry::Commit(commit), quit, reply)
    }

    // The same, with the expansion that the check has made.
    fn committed_with(
        &self,
        caller: u32,
        moment: Moment,
        tree: &Tree,
        expanded: Expanded,
        minutes: u32,
        comment: &Word,
        quit: bool,
    ) -> Result<Prepared, NoMemory>
        requires caller { IsCaller self.now caller }
        requires expanded { expanded.0 ≡ tree.now }
        ensures { IfOk result (Prepares self.now moment (λ turned. turned
            ≡ committed (later self.now moment) caller tree.now minutes comment.now quit)) }
    {
        let full = expanded.full().copy()?;
        match self.committed(caller, moment, tree, minutes, comment, quit) {
            Ok(prepared) => Ok(prepared.with_expansion(full).with_checked(expanded)),
            Err(NoMemory) => Err(NoMemory),
        }
    }

    fn commit_of(
        &self,
        caller: u32,
        moment: Moment,
        tree: &Tree,
        minutes: u32,
        comment: &Word,
        quit: bool,
    ) -> Result<Prepared, NoMemory>
        requires { IsCaller self.now caller }
        ensures { IfOk result (Prepares self.now moment (λ turned. Checks (later self.now moment) tree.now turned
            (committed (later self.now moment) caller tree.now minutes comment.now quit))) }
    {
        match check_after(self.alloc, tree, &self.last) {
            Ok(expanded) => {
                accepted_configurations_fit();
                self.committed_with(caller, moment, tree, expanded, minutes, comment, quit)
            }
            Err(fault) => self.broken(caller, moment, tree, fault),
        }
    }

    pub(crate) fn prepare_commit(
        &self,
        caller: u32,
        moment: Moment,
        minutes: u32,
        comment: &Word,
        quit: bool,
    ) -> Result<Prepared, NoMemory>
        requires { IsCaller self.now caller }
        ensures { IfOk result (Prepares self.now moment (Does (later self.now moment) caller (Command.Commit minutes comment.now quit))) }
    {
        let Some(own) = self.own(caller) else {
            return self.commit_of(caller, moment, self.shared.tree(), minutes, comment, quit);
        };
        match merge(
            self.alloc,
            own.base_tree(),
            self.ledger.active(),
            own.tree(),
        ) {
            Ok(merged) => self.commit_of(caller, moment, &merged, minutes, comment, quit),
            Err(fault) => self.unmerged(caller, moment, own, fault),
        }
    }

    /// What a missed deadline does.
    pub(crate) fn prepare_revert(&self, caller: u32, moment: Moment) -> Result<Prepared, NoMemory>
        requires { IsSome self.now.kept.pending }
        ensures { IfOk result (Prepares self.now moment (λ turned. turned ≡ reverted (later self.now moment))) }
    {
        let _ = self.ledger.pending();
        let _ = self.ledger.last();
        let commit = self.ledger.revert(self.alloc, moment)?;
        let appending = self.appending(Entry::Commit(commit), Maker::Deadline, false)?;
        Ok(step(caller, moment, Effect::Append(appending), Reply::Done))
    }
}
