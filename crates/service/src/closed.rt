ghost use Rattle.std.specs.Prelude.{◌≡◌, [], None};
ghost use Rattle.service.specs.Run.{IsEmpty};

use cfg_base::{Calls, Users};
use modes::StartWhy0;
use session_history::History;
use session_shell::{End, TurnList};
use session_threads::Ticker;
use std::alloc::Global;
use trace_list::Trace;

pub(crate) const NO_CALLS: Calls = Calls { a: 0, b: 0 };

/// All that a run was given, with what it did. Its turns and its events are values only where they were to be kept.
#[derive(Drop)]
pub struct Closed<S, K, C, B, D> {
    /// 0 where all went well; 1 for words that ask nothing; 2, 3, 4, 8, 9 or 10 for a start that was refused, by its cause
    /// (`why`); 4 also where an entry is in flight at the end; 5, 6 or 7 for a session whose source failed, whose sink failed or
    /// whose input has too many bytes; 9 for want of memory.
    pub status: u8,
    pub why: StartWhy0,
    pub ends: Vec<End<S, K, C>>,
    pub ticker: Ticker<B, C>,
    pub turns: Vec<TurnList>,
    pub history: History,
    pub disk_a: D,
    pub disk_b: D,
}

/// The history of a run in which nothing happened.
pub(crate) fn no_history(alloc: Global) -> History
    ensures { IsEmpty result }
{
    History {
        opening: None,
        users: Users::new(alloc),
        made: NO_CALLS,
        events: Trace::new(alloc, true),
    }
}
