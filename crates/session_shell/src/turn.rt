ghost use Rattle.std.specs.Prelude.{◌≡◌, [], IfSome};

use crate::door::SyncedTurn;
use access_rules::Right;
use cfg_base::Moment;
use reply_text::ShellFault;
use std::alloc::Global;
use std::marker::Model;
use trace_list::Trace;

/// What one item of a session's input came to.
#[derive(Clone, Debug, Drop, PartialEq, Eq)]
pub enum Turn {
    /// The event at that place of the history, counted from 0.
    Kept(u64),
    /// The event at that place is a show that was answered with a text, and memory for its JSON was wanting.
    KeptDry(u64),
    /// The event at that place is a commit that is synchronized, and was made; the door then answered so to `synchronize`.
    KeptSynced {
        place: u64,
        synced: SyncedTurn,
    },
    /// What a snapshot of that many entries of the list of commits says, at that answer of the session's clock.
    Seen {
        front: u64,
        moment: Moment,
    },
    /// The same, of a show that was answered with a text, and memory for its JSON was wanting.
    SeenDry {
        front: u64,
        moment: Moment,
    },
    /// The command was denied at that answer of the session's clock: its user lacks that right, by the first so many entries of the
    /// list of commits.
    Denied {
        front: u64,
        right: Right,
        moment: Moment,
    },
    /// A disk failed before the command was asked, at that answer of the session's clock; the list of commits has that many
    /// entries.
    Unready {
        front: u64,
        moment: Moment,
    },
    /// The line, or the text of a load, was refused.
    Local(ShellFault),
    /// Memory ran out.
    NoMemory,
}

/// How a session ended.
#[derive(Clone, Copy, Debug, PartialEq, Eq)]
pub enum How {
    /// Its input was read to its end, or to the `exit` that logs out.
    Clean,
    SourceFault,
    SinkFault,
    /// Its input has more bytes than it may have.
    InputFull,
    NoMemory,
}

/// The turns of a session, in order. They are values only where they were to be kept; else they are for clauses.
#[derive(Drop)]
pub struct TurnList {
    turns: Trace<Turn>,
}

impl Model for TurnList {
    ghost use Rattle.std.specs.Prelude.{List};
    ghost use Rattle.session_shell.specs.declared.turn.Turn.{Turn};

    ghost Value = { List Turn };

    ghost view = { λ t. t.turns.items };
}

impl TurnList {
    /// No turns. As values there are none too.
    pub fn none(alloc: Global) -> TurnList
        ensures { result ≡ [] }
    {
        TurnList {
            turns: Trace::new(alloc, true),
        }
    }

    /// The turns, in order, where they are kept.
    pub fn values(&self) -> Option<&[Turn]>
        ensures { IfSome result (λ turns. turns.now ≡ self.now) }
    {
        self.turns.values()
    }
}

impl From<Trace<Turn>> for TurnList {
    ghost from_gives = { λ source turns. turns ≡ source.items };

    fn from(turns: Trace<Turn>) -> TurnList {
        TurnList { turns }
    }
}
