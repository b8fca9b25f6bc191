//! A list of commits that is read from two disks.

ghost use Rattle.std.specs.Prelude.{◌≡◌, IfOk, IfErr};
ghost use Rattle.record_code.specs.Listed.{records_of};
ghost use Rattle.commit_check.specs.Accepts.{Accepts};
ghost use Rattle.disk_model.specs.Pair.{pair_of};
ghost use Rattle.commit_journal.specs.Journal.{disk_a, disk_b, disks_of};
ghost use Rattle.commit_journal.specs.Opening.{IsOpened};
ghost use Rattle.commit_ledger.specs.Reading.{ReadsAs};
ghost use Rattle.stored_ledger.specs.Starting.{IsFound, IsNotFound};
ghost use Rattle.stored_ledger.specs.Stored.{IsStored};
ghost use Rattle.stored_ledger.specs.Whys.{IsUnreadFor, why_of_opening};

use crate::stored::Stored;
use crate::why::{StartFault, StartWhy};
use cfg_base::Limits;
use commit_check::Judge;
use commit_journal::{AttachFault, AttachWhy, Journal};
use commit_ledger::{Ledger, LedgerFault};
use disk_model::Disk;
use record_code::Payloads;
use std::alloc::Global;

fn why_of(why: AttachWhy) -> StartWhy
    ensures { result ≡ why_of_opening why }
{
    match why {
        AttachWhy::NotAJournal => StartWhy::NotAJournal,
        AttachWhy::Damaged {
            offset,
            kept,
            computed,
        } => StartWhy::Damaged {
            offset,
            kept,
            computed,
        },
        AttachWhy::DiskFault => StartWhy::DiskFault,
        AttachWhy::NoMemory => StartWhy::NoMemory,
    }
}

fn not_attached<D>(fault: AttachFault<D>) -> StartFault<D>
    ensures { result ≡ record { why = why_of_opening fault.why; a = fault.a; b = fault.b } }
{
    StartFault {
        why: why_of(fault.why),
        a: fault.a,
        b: fault.b,
    }
}

/// The list that records are read as, or why they aren't.
fn read_list(alloc: Global, payloads: &Payloads) -> Result<Ledger, StartWhy>
    ensures ok { IfOk result (ReadsAs Accepts (records_of payloads.now)) }
    ensures err { IfErr result (IsUnreadFor payloads.now) }
{
    match Ledger::of(alloc, payloads, &Judge::of(alloc)) {
        Ok(ledger) => Ok(ledger),
        Err(LedgerFault::BadRecord { offset }) => Err(StartWhy::BadRecord { offset }),
        Err(LedgerFault::NoMemory) => Err(StartWhy::NoMemory),
    }
}

/// Gives the disks of a journal back whose records aren't a list of commits.
fn given_back<D: Disk>(why: StartWhy, journal: Journal<D>) -> StartFault<D>
    ensures { (result.why ≡ why) × (D.view result.a ≡ disk_a journal) × (D.view result.b ≡ disk_b journal) }
{
    let (a, b) = journal.into_disks();
    StartFault { why, a, b }
}

impl<D: Disk> Stored<D> {
    /// Opens the list of commits that two disks hold. It leaves their contents as they were.
    pub fn open(alloc: Global, a: D, b: D, limits: Limits) -> Result<Stored<D>, StartFault<D>>
        ensures opened { IfOk result (λ stored. IsOpened (D.view a) (D.view b) limits.journal stored.journal) }
        ensures stored { IfOk result (λ stored. IsStored stored.journal stored.ledger) }
        ensures found { IfOk result (λ stored.
            IsFound (pair_of D.view a b) (disks_of stored.journal) stored.ledger) }
        ensures err { IfErr result (λ fault.
            IsNotFound (pair_of D.view a b) fault.why (pair_of D.view fault.a fault.b)) }
    {
        let (journal, payloads) = match Journal::attach(alloc, a, b, limits.journal) {
            Ok(attached) => attached,
            Err(fault) => return Err(not_attached(fault)),
        };
        match read_list(alloc, &payloads) {
            Ok(ledger) => Ok(Stored { journal, ledger }),
            Err(why) => Err(given_back(why, journal)),
        }
    }
}
