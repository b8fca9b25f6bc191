//! The time of a commit that waits for it.

ghost use Rattle.std.specs.Prelude.{◌≡◌};
ghost use Rattle.commands.specs.When.{at_of};

use cfg_base::Moment;

/// The seconds of a day in UTC.
const DAY: u64 = 86_400;

/// The time of a commit that waits for it, in UTC. Junos OS CLI User Guide, on scheduling a commit.
#[derive(Clone, Copy, Debug, PartialEq, Eq)]
pub enum When {
    /// That second of the day on which it is asked.
    Today { second: u32 },
    /// That second of the day so many days after 1970-01-01.
    OnDay { day: u32, second: u32 },
}

impl When {
    /// The moment that is meant, where it is asked at this moment; at most the last one.
    pub fn at(self, moment: Moment) -> Moment
        ensures { result ≡ at_of self moment }
    {
        match self {
            When::Today { second } => Moment::of(moment.seconds() / DAY * DAY + u64::from(second)),
            When::OnDay { day, second } => Moment::of(u64::from(day) * DAY + u64::from(second)),
        }
    }
}
