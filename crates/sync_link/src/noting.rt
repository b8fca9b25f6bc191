//! What comes of a call of a backup's list.

ghost use Rattle.std.specs.Prelude.{◌≡◌, ◌<◌, ◌++◌, ◌∷◌, [], length, vec_capacity, true, false};
ghost use Rattle.std.specs.Option.{option_map};
ghost use Rattle.commit_ledger.specs.Kept.{Kept};
ghost use Rattle.stored_ledger.specs.Growing.{answer_of};
ghost use Rattle.sync_link.specs.Marks.{mark_of};
ghost use Rattle.sync_link.specs.Views.{CanLand, done_of, flight_by, flight_of, landed_in};

use crate::flight::Flight;
use crate::landing::land;
use crate::mark::Mark;
use cfg_base::Calls;
use commit_ledger::Ledger;
use disk_model::DiskDone;
use stored_ledger::Change;

/// What is known behind a call that was to make one list of another.
pub(crate) fn answer_of(done: DiskDone) -> Option<bool>
    ensures { result ≡ answer_of done }
{
    match done {
        DiskDone::Done => Some(true),
        DiskDone::Failed => None,
    }
}

/// Whether it was found out which list the disks have.
pub(crate) fn done_of(found: Option<bool>) -> DiskDone
    ensures { result ≡ done_of found }
{
    match found {
        Some(_) => DiskDone::Done,
        None => DiskDone::Failed,
    }
}

/// How what is in flight was to change the list.
pub(crate) fn change_of(flight: &Option<Flight>) -> Option<Change>
    ensures { (kept : Kept) → result ≡ option_map (λ making. making.change) (flight_of kept flight.now) }
{
    match flight {
        None => None,
        Some(Flight::Entry(_)) => Some(Change::Entry),
        Some(Flight::Whole(_)) => Some(Change::Whole),
    }
}

/// Puts in place what came of a call, and notes the call.
pub(crate) fn note(
    ledger: &mut Ledger,
    flight: &mut Option<Flight>,
    marks: &mut Vec<Mark>,
    events: u64,
    calls: Calls,
    found: Option<bool>,
)
    requires can { CanLand ledger.old flight.old }
    requires room { length marks.old.items < vec_capacity marks.old }
    ensures ledger { ledger.new ≡ landed_in found ledger.old (flight_of ledger.old flight.old) }
    ensures flight { flight_of ledger.new flight.new ≡ flight_by found (flight_of ledger.old flight.old) }
    ensures can { CanLand ledger.new flight.new }
    ensures marks { marks.new.items ≡ marks.old.items ++ mark_of events calls ledger.new.count ∷ [] }
    ensures capacity { vec_capacity marks.new ≡ vec_capacity marks.old }
{
    land(ledger, flight, found);
    marks.push_reserved(Mark {
        events,
        calls,
        count: ledger.count(),
    });
}
