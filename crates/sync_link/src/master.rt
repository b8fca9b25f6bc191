ghost use Rattle.std.specs.Prelude.{◌≡◌, ◌≤◌, ◌+◌, Some, None, length, slice_get, IfOk, IfSome};
ghost use Rattle.std.specs.Option.{option_map};
ghost use Rattle.sync_link.specs.Sending.{greater, next_of};
ghost use Rattle.sync_link.specs.declared.message.Message.TheVariants.{Offer as OfferOf};

use crate::message::{Ack, Message};
use cfg_base::NoMemory;
use commit_ledger::{EntryList, Ledger};
use std::alloc::Global;

/// What a master knows of its backup.
#[derive(Clone, Copy, Debug, PartialEq, Eq)]
pub struct Master {
    /// From which count on entries can be offered. A backup with fewer gets the whole list.
    pub opened: u64,
    /// How many entries the backup told that it has, at most.
    pub told: Option<u64>,
}

/// The entry at that place of a list, as it is offered for a place of the whole one.
fn offer(since: &EntryList, count: u64, place: u64) -> Result<Option<Message>, NoMemory>
    ensures { IfOk result (λ next. next ≡ option_map (λ entry. OfferOf count entry) (slice_get since.now place)) }
{
    match since.get(place) {
        None => Ok(None),
        Some(entry) => match entry.copy() {
            Ok(entry) => Ok(Some(Message::Offer {
                place: count,
                entry,
            })),
            Err(NoMemory) => Err(NoMemory),
        },
    }
}

impl Master {
    /// A master that was told nothing yet, of a list with so many entries.
    pub fn at(opened: u64) -> Master
        ensures { result ≡ record { opened = opened; told = None } }
    {
        Master { opened, told: None }
    }

    /// Says from which count on entries can be offered.
    pub fn offer_from(&mut self, opened: u64)
        ensures { self.new ≡ record self.old { opened = opened } }
    {
        self.opened = opened;
    }

    /// The next message, if the backup doesn't have all entries.
    pub fn next(
        &self,
        alloc: Global,
        ledger: &Ledger,
        since: &EntryList,
    ) -> Result<Option<Message>, NoMemory>
        requires since { self.now.opened + length since.now ≡ ledger.now.count }
        requires told { IfSome self.now.told (λ n. n ≤ ledger.now.count) }
        ensures { IfOk result (λ next. next ≡ next_of self.now ledger.now since.now) }
    {
        let Some(count) = self.told else {
            return Ok(Some(Message::Ask));
        };
        if count == ledger.count() {
            return Ok(None);
        }
        if count < self.opened {
            return match ledger.copy(alloc) {
                Ok(ledger) => Ok(Some(Message::Whole { ledger })),
                Err(NoMemory) => Err(NoMemory),
            };
        }
        offer(since, count, count - self.opened)
    }

    /// Takes an answer.
    pub fn take(&mut self, ack: &Ack)
        ensures { self.new ≡ record self.old { told = Some (greater self.old.told ack.now.count) } }
    {
        self.told = match self.told {
            None => Some(ack.count),
            Some(count) => Some(count.max(ack.count)),
        };
    }
}
