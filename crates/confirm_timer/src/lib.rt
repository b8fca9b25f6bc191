//! When a confirmed commit must be confirmed, and whether that moment has come.
//!
//! Guarantees: a deadline is the commit's moment plus its minutes, and is due from that second on.
//! Leaves to others: what a missed deadline restores (`commit_ledger`), and when time is looked at (`config_core`).
#![tactic(auto)]

ghost use Rattle.std.specs.Prelude.{◌≡◌, ◌<◌, ◌↔◌, IsTrue, false};
ghost use Rattle.cfg_base.specs.declared.moment.TheConstants.{MOMENT_MAX};
ghost use Rattle.confirm_timer.specs.Deadline.{after_minutes, IsDue};

use cfg_base::Moment;

const SECONDS_A_MINUTE: u64 = 60;

/// The deadline in seconds since 1970-01-01 00:00:00 UTC, that many minutes after the moment.
pub fn deadline_of(moment: Moment, minutes: u32) -> u64
    ensures { result ≡ after_minutes moment minutes }
{
    moment.seconds() + SECONDS_A_MINUTE * u64::from(minutes)
}

/// Whether the deadline, in seconds since 1970-01-01 00:00:00 UTC, has come.
pub fn is_due(deadline: u64, moment: Moment) -> bool
    ensures due { IsTrue result ↔ IsDue deadline moment }
    // a deadline above the last moment never comes
    ensures never { MOMENT_MAX < deadline → result ≡ false }
{
    deadline <= moment.seconds()
}
