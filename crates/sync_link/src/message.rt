ghost use Rattle.std.specs.Prelude.{◌≡◌, IfOk};

use cfg_base::NoMemory;
use commit_ledger::{Entry, Ledger};
use std::alloc::Global;

/// What the master sends.
#[derive(Debug, Drop)]
pub enum Message {
    /// How many entries are there?
    Ask,
    /// The entry for that place, counted from 0.
    Offer { place: u64, entry: Entry },
    /// The whole list.
    Whole { ledger: Ledger },
}

/// How many entries the backup's list has.
#[derive(Clone, Copy, Debug, PartialEq, Eq)]
pub struct Ack {
    pub count: u64,
}

impl Message {
    /// A copy, whose maps share their pages.
    pub fn copy(&self, alloc: Global) -> Result<Message, NoMemory>
        ensures { IfOk result (λ copy. copy ≡ self.now) }
    {
        match self {
            Message::Ask => Ok(Message::Ask),
            Message::Offer { place, entry } => Ok(Message::Offer {
                place: *place,
                entry: entry.copy()?,
            }),
            Message::Whole { ledger } => Ok(Message::Whole {
                ledger: ledger.copy(alloc)?,
            }),
        }
    }
}
