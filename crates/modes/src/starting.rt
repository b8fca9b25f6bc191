//! The modes that begin with two disks.

ghost use Rattle.std.specs.Prelude.{◌≡◌};
ghost use Rattle.disk_model.specs.Pair.{pair_of};
ghost use Rattle.commit_journal.specs.Journal.{disks_of};
ghost use Rattle.modes.specs.Modes.{IsCheck, IsInit, start_status};
ghost use Rattle.modes.specs.declared.did.StartWhy0.TheVariants.{None as NoWhy, Why};

use crate::did::{Did, StartWhy0};
use crate::telling::tell;
use crate::text::check_text;
use cfg_base::{Limits, NoMemory};
use disk_model::Disk;
use io_edge::Sink;
use std::alloc::Global;
use stored_ledger::{StartFault, StartWhy, Stored};

/// The status of a refused start: 2 no journal, 3 a damaged record, 4 a disk's fault, 8 a journal that is there, 9 want of memory,
/// 10 a record that breaks a rule.
pub fn status_of_start(why: StartWhy) -> u8
    ensures { result ≡ start_status why }
{
    match why {
        StartWhy::NotAJournal => 2,
        StartWhy::Damaged { .. } => 3,
        StartWhy::DiskFault => 4,
        StartWhy::Exists => 8,
        StartWhy::NoMemory => 9,
        StartWhy::BadRecord { .. } => 10,
    }
}

/// A mode whose start was refused.
fn refused<D>(fault: StartFault<D>) -> Did<D>
    ensures { result ≡ record { status = start_status fault.why; why = Why fault.why; a = fault.a; b = fault.b } }
{
    Did {
        status: status_of_start(fault.why),
        why: StartWhy0::Why(fault.why),
        a: fault.a,
        b: fault.b,
    }
}

/// A mode that ends with this status, over a list that was made or found.
fn ended<D: Disk>(status: u8, stored: Stored<D>) -> Did<D>
    ensures status { result.status ≡ status }
    ensures why { result.why ≡ NoWhy }
    ensures disks { pair_of D.view result.a result.b ≡ disks_of stored.journal }
{
    let Stored { journal, ledger: _ } = stored;
    let (a, b) = journal.into_disks();
    Did {
        status,
        why: StartWhy0::None,
        a,
        b,
    }
}

/// Makes a list of the factory commit alone on two disks, and reports it.
pub fn init<K: Sink, D: Disk>(alloc: Global, sink: &mut K, a: D, b: D, limits: Limits) -> Did<D>
    ensures { IsInit (sink.new ≡ sink.old) (K.view sink.old) (K.view sink.new) (pair_of D.view a b)
        (pair_of D.view result.a result.b) result.status result.why }
{
    match Stored::create(alloc, a, b, limits) {
        Ok(stored) => ended(tell(sink, b"journal created\n"), stored),
        Err(fault) => refused(fault),
    }
}

/// Reports what the list on two disks has, and leaves their contents as they were.
pub fn check<K: Sink, D: Disk>(alloc: Global, sink: &mut K, a: D, b: D, limits: Limits) -> Did<D>
    ensures { IsCheck (sink.new ≡ sink.old) (K.view sink.old) (K.view sink.new) (pair_of D.view a b)
        (pair_of D.view result.a result.b) result.status result.why }
{
    match Stored::open(alloc, a, b, limits) {
        Ok(stored) => match check_text(alloc, &stored.ledger) {
            Ok(text) => ended(tell(sink, text.as_slice()), stored),
            Err(NoMemory) => ended(9, stored),
        },
        Err(fault) => refused(fault),
    }
}
