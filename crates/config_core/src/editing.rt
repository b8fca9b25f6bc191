//! Changes of the candidate that a session edits, loads, rollbacks and updates.

ghost use Rattle.std.specs.Prelude.{◌≡◌, ◌==◌, IfOk, MatchBool};
ghost use Rattle.commands.specs.declared.command.Command.{Command};
ghost use Rattle.private_merge.specs.Merge.{IsMergeFault};
ghost use Rattle.commit_ledger.specs.Kept.{active_of};
ghost use Rattle.config_core.specs.Callers.{IsCaller, candidate_of};
ghost use Rattle.config_core.specs.declared.reply.Reply.TheVariants.{Loaded};
ghost use Rattle.config_core.specs.Serving.{Does, IsNotMerged, IsOwnMerge, Replaces, Updates, answered, freshened};
ghost use Rattle.config_core.specs.Machine.{later};
ghost use Rattle.config_core.specs.Prepared.{Prepares};

use crate::core_state::Core;
use crate::effect::Effect;
use crate::prepared::{Prepared, refused, step};
use crate::refusing::{load_refusal_of, merge_refusal_of, refusal_of};
use crate::reply::{Refusal, Reply};
use candidate::Candidate;
use cfg_base::{Bytes, Moment, NoMemory};
use cfg_tree::Tree;
use commands::{LoadWay, Op};
use commit_ledger::NoRollback;
use load_ops::load;
use private_merge::{MergeFault, merge};

impl Core {
    pub(crate) fn prepare_change(
        &self,
        caller: u32,
        moment: Moment,
        op: &Op,
    ) -> Result<Prepared, NoMemory>
        requires { IsCaller self.now caller }
        ensures { IfOk result (Prepares self.now moment (Does (later self.now moment) caller (Command.Change op.now))) }
    {
        let mut next = self.candidate(caller).copy()?;
        let level = self.session(caller).position.level();
        match next.change(self.alloc, level, op) {
            Ok(()) => Ok(step(caller, moment, Effect::Edit(next), Reply::Done)),
            Err(fault) => {
                let refusal = refusal_of(fault).ok_or(NoMemory)?;
                Ok(refused(caller, moment, refusal))
            }
        }
    }

    // This map takes the place of that of the caller's candidate.
    fn replaced(&self, caller: u32, moment: Moment, tree: Tree) -> Result<Prepared, NoMemory>
        ensures { IfOk result (Prepares self.now moment (Replaces (later self.now moment) caller tree)) }
    {
        let mut next = self.candidate(caller).copy()?;
        next.replace(tree);
        Ok(step(caller, moment, Effect::Edit(next), Reply::Loaded))
    }

    pub(crate) fn prepare_load(
        &self,
        caller: u32,
        moment: Moment,
        way: LoadWay,
        text: &Bytes,
    ) -> Result<Prepared, NoMemory>
        requires { IsCaller self.now caller }
        ensures { IfOk result (Prepares self.now moment (Does (later self.now moment) caller (Command.Load way text.now))) }
    {
        let mut tree = self.candidate(caller).tree().copy()?;
        match load(self.alloc, &mut tree, way, text.as_slice()) {
            Ok(_) => self.replaced(caller, moment, tree),
            Err(fault) => {
                let refusal = load_refusal_of(fault).ok_or(NoMemory)?;
                Ok(refused(caller, moment, refusal))
            }
        }
    }

    // The map of the n-th last commit is loaded; of the last one the candidate is fresh.
    fn rolled(&self, caller: u32, moment: Moment, n: u32, tree: &Tree) -> Result<Prepared, NoMemory>
        ensures { IfOk result (Prepares self.now moment (λ turned. MatchBool (n == 0)
            (turned ≡ answered (freshened (later self.now moment) caller) Loaded) (Replaces (later self.now moment) caller tree.now turned))) }
    {
        if n == 0 {
            let fresh = self.fresh()?;
            return Ok(step(caller, moment, Effect::Edit(fresh), Reply::Loaded));
        }
        self.replaced(caller, moment, tree.copy()?)
    }

    pub(crate) fn prepare_rollback(
        &self,
        caller: u32,
        moment: Moment,
        n: u32,
    ) -> Result<Prepared, NoMemory>
        requires { IsCaller self.now caller }
        ensures { IfOk result (Prepares self.now moment (Does (later self.now moment) caller (Command.Rollback n))) }
    {
        match self.ledger.rollback(n) {
            Ok(tree) => self.rolled(caller, moment, n, tree),
            Err(NoRollback { n, kept }) => {
                Ok(refused(caller, moment, Refusal::NoRollback { n, kept }))
            }
        }
    }

    /// The refusal of a candidate whose changes aren't merged.
    pub(crate) fn unmerged(
        &self,
        caller: u32,
        moment: Moment,
        own: &Candidate,
        fault: MergeFault,
    ) -> Result<Prepared, NoMemory>
        requires { IsMergeFault own.now.base (active_of self.now.kept) own.now.map fault }
        ensures { IfOk result (Prepares self.now moment (IsNotMerged (later self.now moment) own.now)) }
    {
        let refusal = merge_refusal_of(fault).ok_or(NoMemory)?;
        Ok(refused(caller, moment, refusal))
    }

    // What is merged becomes an edit of the last commit.
    fn updated(&self, caller: u32, moment: Moment, merged: Tree) -> Result<Prepared, NoMemory>
        requires { IsOwnMerge self.now (candidate_of self.now caller) merged }
        ensures { IfOk result (Prepares self.now moment (Updates (later self.now moment) caller)) }
    {
        let mut next = self.fresh()?;
        next.replace(merged);
        Ok(step(caller, moment, Effect::Edit(next), Reply::Done))
    }

    pub(crate) fn prepare_update(&self, caller: u32, moment: Moment) -> Result<Prepared, NoMemory>
        ensures { IfOk result (Prepares self.now moment (Does (later self.now moment) caller Command.Update)) }
    {
        let own = self.candidate(caller);
        match merge(
            self.alloc,
            own.base_tree(),
            self.ledger.active(),
            own.tree(),
        ) {
            Ok(merged) => self.updated(caller, moment, merged),
            Err(fault) => self.unmerged(caller, moment, own, fault),
        }
    }
}
