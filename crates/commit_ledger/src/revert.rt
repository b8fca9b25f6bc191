//! What a missed deadline makes.

ghost use Rattle.std.specs.Prelude.{◌≡◌, IfOk};
ghost use Rattle.commit_ledger.specs.Kept.{revert_of, is_revert_due};

use crate::entry::{Commit, Via};
use crate::ledger::Ledger;
use cfg_base::{Moment, NoMemory, UserName, Word};
use confirm_timer::is_due;
use std::alloc::Global;

impl Ledger {
    /// Whether an unconfirmed run has missed its deadline.
    pub fn is_revert_due(&self, moment: Moment) -> bool
        ensures { result ≡ is_revert_due self.now moment }
    {
        match self.pending() {
            Some(pending) => is_due(pending.deadline, moment),
            None => false,
        }
    }

    /// The commit that goes back to the map from before an unconfirmed run.
    pub fn revert(&self, alloc: Global, moment: Moment) -> Result<Commit, NoMemory>
        ensures { IfOk result (λ commit. commit ≡ revert_of self.now moment) }
    {
        Ok(Commit {
            number: self.last.number + 1,
            user: UserName::root(alloc)?,
            via: Via::Other,
            moment,
            comment: Word::empty(alloc),
            tree: self.target().tree.copy()?,
            minutes: 0,
        })
    }
}
