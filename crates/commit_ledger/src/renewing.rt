//! A list as it is read back.

ghost use Rattle.std.specs.Prelude.{◌≡◌};
ghost use Rattle.commit_ledger.specs.Checkpoint.{as_read};

use crate::ledger::Ledger;

impl Ledger {
    /// Makes it the list that is read back from its own checkpoint: the last moment is that of what waits, or of the last commit.
    pub fn renew(&mut self)
        ensures { self.new ≡ as_read self.old }
    {
        self.moment = match &self.scheduled {
            Some(waiting) => waiting.moment,
            None => self.last.moment,
        };
    }
}
