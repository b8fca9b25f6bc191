ghost use Rattle.std.specs.Prelude.{◌≡◌, ◌≤◌, min, max};
ghost use Rattle.cfg_base.specs.declared.moment.TheConstants.{MOMENT_MAX};

use std::marker::Model;

/// The last moment: 9999-01-01 00:00:00 UTC.
pub const MOMENT_MAX: u64 = 253_370_764_800;

/// A moment in seconds since 1970-01-01 00:00:00 UTC, at most `MOMENT_MAX`.
#[derive(Clone, Copy, Debug, PartialEq, Eq, PartialOrd, Ord)]
pub struct Moment(u64);

impl Model for Moment {
    ghost use Rattle.std.specs.Prelude.{ℕ, ◌≤◌};
    ghost use Rattle.cfg_base.specs.declared.moment.TheConstants.{MOMENT_MAX};

    ghost Value = { ℕ };

    ghost view = { λ m. m.0 };

    ghost invariant = { λ m. m.0 ≤ MOMENT_MAX };

    ghost inverse = { λ n. record { 0 = n } };
}

impl Moment {
    /// The moment of that many seconds, or the last one where they are more.
    pub fn of(seconds: u64) -> Moment
        ensures { result ≡ min seconds MOMENT_MAX }
    {
        Moment(seconds.min(MOMENT_MAX))
    }

    /// The seconds since 1970.
    pub fn seconds(self) -> u64
        ensures same { result ≡ self }
        ensures within { result ≤ MOMENT_MAX }
    {
        self.0
    }

    /// The later of two moments.
    pub fn later(self, other: Moment) -> Moment
        ensures { result ≡ max self other }
    {
        Moment(self.0.max(other.0))
    }
}
