use cfg_base::{Calls, Moment, Users};
use commit_ledger::Ledger;
use config_core::{Event, Outcome};
use trace_list::Trace;

/// One event as the machine took it.
#[derive(Clone, Debug, Drop, PartialEq, Eq)]
pub struct Happened {
    /// Whose event it is; sessions are numbered from 1.
    pub caller: u32,
    pub moment: Moment,
    pub event: Event,
    pub outcome: Outcome,
    /// The calls that were made of the disks up to this event.
    pub calls: Calls,
}

/// All that happened in a run, in order. Its events are values only where the run was to keep them; else they are for clauses.
#[derive(Drop)]
pub struct History {
    /// The list of entries over which the run began; none where it did not begin.
    pub opening: Option<Ledger>,
    /// The users of callers 1, 2 and so on.
    pub users: Users,
    /// The calls that were made of the disks in all.
    pub made: Calls,
    pub events: Trace<Happened>,
}
