//! What becomes of an entry or a list in flight.

ghost use Rattle.std.specs.Prelude.{◌≡◌};
ghost use Rattle.sync_link.specs.Views.{CanLand, flight_by, flight_of, landed_in};

use crate::flight::Flight;
use commit_ledger::Ledger;

/// Takes in what was in flight, where it is made; lets go of it, where it isn't; keeps it, where it isn't known.
pub(crate) fn land(ledger: &mut Ledger, flight: &mut Option<Flight>, found: Option<bool>)
    requires { CanLand ledger.old flight.old }
    ensures ledger { ledger.new ≡ landed_in found ledger.old (flight_of ledger.old flight.old) }
    ensures flight { flight_of ledger.new flight.new ≡ flight_by found (flight_of ledger.old flight.old) }
    ensures can { CanLand ledger.new flight.new }
{
    match found {
        None => {}
        Some(false) => *flight = None,
        Some(true) => match flight.take() {
            None => {}
            Some(Flight::Entry(ready)) => ledger.accept(ready),
            Some(Flight::Whole(whole)) => *ledger = whole,
        },
    }
}
