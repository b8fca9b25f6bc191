//! How a database ends.

ghost use Rattle.config_db.specs.Closing.{IsHandedBack, SettlesLast};
ghost use Rattle.disk_model.specs.Pair.{pair_of};
ghost use Rattle.std.specs.Prelude.{◌≡◌};

use crate::answer::ClosedBook;
use crate::database::Database;
use active_snapshot::Naming;
use config_core::{Need, Outcome};
use disk_model::Disk;
use session_history::{History, histories_stay_accepted};
use std::sync::Wait;

impl<D: Disk, J: Naming> Database<D, J> {
    /// Settles what is in flight, and reports whether an entry is in flight still.
    pub(crate) fn settle_last<R: Wait>(&mut self, rt: &R) -> bool
        ensures { SettlesLast result self.old self.new }
    {
        let moment = self.core.greatest();
        match self.core.next(moment) {
            Need::Settle => match self.settle(rt, 0, moment) {
                Outcome::Done => false,
                Outcome::Fault => true,
            },
            Need::Revert | Need::Carry | Need::Nothing => false,
        }
    }

    /// What happened, and the disks. The writer ends, and with it the readers that nobody took.
    pub(crate) fn hand_back<R: Wait>(self, rt: &R, fault: bool) -> ClosedBook<D>
        ensures fault { result.fault ≡ fault }
        ensures back { IsHandedBack self result.history (pair_of D.view result.a result.b) }
    {
        histories_stay_accepted();
        let Database {
            alloc: _,
            journal,
            opening,
            users,
            events,
            core: _,
            held: _,
            shown,
            readers: _,
        } = self;
        shown.end(rt);
        let made = journal.calls();
        let (a, b) = journal.into_disks();
        ClosedBook {
            history: History {
                opening: Some(opening),
                users,
                made,
                events,
            },
            fault,
            a,
            b,
        }
    }
}
