//! A list of commits that is made on two disks.

ghost use Rattle.std.specs.Prelude.{◌≡◌, IfOk, IfErr};
ghost use Rattle.disk_model.specs.Pair.{pair_of};
ghost use Rattle.commit_journal.specs.Journal.{disks_of};
ghost use Rattle.commit_journal.specs.Opening.{IsOpened};
ghost use Rattle.commit_ledger.specs.Kept.{factory};
ghost use Rattle.stored_ledger.specs.Starting.{IsMade, IsNotMade, why_of_making};
ghost use Rattle.stored_ledger.specs.Stored.{IsStored, factory_records};

use crate::stored::Stored;
use crate::why::{StartFault, StartWhy};
use cfg_base::{Limits, NoMemory};
use commit_check::{Judge, nothing_is_accepted};
use commit_journal::{CreateFault, CreateWhy, Journal};
use commit_ledger::{Entry, Ledger, lists_begin_with_one_commit, payload_of};
use disk_model::Disk;
use record_code::{Encoded, encode};
use std::alloc::Global;

/// The record of a list that has the factory commit alone.
fn first_record(alloc: Global, ledger: &Ledger) -> Result<Encoded, NoMemory>
    requires { ledger.now ≡ factory }
    ensures { IfOk result (λ first. first ≡ factory_records) }
{
    lists_begin_with_one_commit(&Judge::of(alloc));
    let entry = Entry::Commit(ledger.last().copy()?);
    encode(alloc, entry.kind(), &payload_of(alloc, &entry)?)
}

/// The list of the factory commit, and its record.
fn beginning(alloc: Global) -> Result<(Ledger, Encoded), NoMemory>
    ensures { IfOk result (λ made. (made.0 ≡ factory) × (made.1 ≡ factory_records)) }
{
    let ledger = Ledger::factory(alloc)?;
    let first = first_record(alloc, &ledger)?;
    Ok((ledger, first))
}

fn why_of(why: CreateWhy) -> StartWhy
    ensures { result ≡ why_of_making why }
{
    match why {
        CreateWhy::Exists => StartWhy::Exists,
        CreateWhy::DiskFault => StartWhy::DiskFault,
        CreateWhy::NoMemory => StartWhy::NoMemory,
    }
}

fn not_made<D>(fault: CreateFault<D>) -> StartFault<D>
    ensures { result ≡ record { why = why_of_making fault.why; a = fault.a; b = fault.b } }
{
    StartFault {
        why: why_of(fault.why),
        a: fault.a,
        b: fault.b,
    }
}

impl<D: Disk> Stored<D> {
    /// Makes a list of the factory commit alone on two disks, unless a journal is there.
    pub fn create(alloc: Global, a: D, b: D, limits: Limits) -> Result<Stored<D>, StartFault<D>>
        ensures opened { IfOk result (λ stored. IsOpened (D.view a) (D.view b) limits.journal stored.journal) }
        ensures stored { IfOk result (λ stored. IsStored stored.journal stored.ledger) }
        ensures made { IfOk result (λ stored.
            IsMade (pair_of D.view a b) (disks_of stored.journal)) }
        ensures factory { IfOk result (λ stored. stored.ledger ≡ factory) }
        ensures err { IfErr result (λ fault.
            IsNotMade (pair_of D.view a b) fault.why (pair_of D.view fault.a fault.b)) }
    {
        nothing_is_accepted();
        lists_begin_with_one_commit(&Judge::of(alloc));
        let (ledger, first) = match beginning(alloc) {
            Ok(made) => made,
            Err(NoMemory) => {
                return Err(StartFault {
                    why: StartWhy::NoMemory,
                    a,
                    b,
                });
            }
        };
        match Journal::create(alloc, a, b, &first, limits.journal) {
            Ok(journal) => Ok(Stored { journal, ledger }),
            Err(fault) => Err(not_made(fault)),
        }
    }
}
