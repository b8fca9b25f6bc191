//! What a scheduled commit becomes.

ghost use Rattle.std.specs.Prelude.{◌≡◌, IfOk};
ghost use Rattle.std.specs.Option.{option_map};
ghost use Rattle.commit_ledger.specs.Kept.{carry_of, ready_in};

use crate::entry::{Commit, Scheduled, Via};
use crate::ledger::Ledger;
use cfg_base::{Moment, NoMemory};

impl Ledger {
    /// The scheduled commit, where its time has come.
    pub fn ready(&self, moment: Moment) -> Option<&Scheduled>
        ensures { option_map (λ waiting. waiting.now) result ≡ ready_in self.now moment }
    {
        match &self.scheduled {
            Some(waiting) if waiting.at <= moment => Some(waiting),
            _ => None,
        }
    }

    /// The commit that a scheduled one becomes.
    pub fn carry(&self, waiting: &Scheduled, moment: Moment) -> Result<Commit, NoMemory>
        ensures { IfOk result (λ commit. commit ≡ carry_of self.now waiting.now moment) }
    {
        Ok(Commit {
            number: self.last.number + 1,
            user: waiting.user.clone()?,
            via: Via::Cli,
            moment,
            comment: waiting.comment.clone()?,
            tree: waiting.tree.copy()?,
            minutes: 0,
        })
    }
}
