ghost use Rattle.std.specs.Prelude.{◌≡◌};
ghost use Rattle.commit_journal.specs.Journal.{next_of};

/// What isn't known to be kept.
#[derive(Clone, Copy, Debug, PartialEq, Eq)]
pub enum Flight {
    Nothing,
    /// A record, with the place of the gate after it.
    Record(u64),
    /// An image in the file that doesn't count, with the place of the gate after its records.
    Image(u64),
}

impl Flight {
    /// The place of the gate after what is in flight.
    pub(crate) fn next_or(self, gate: u64) -> u64
        ensures { result ≡ next_of self gate }
    {
        match self {
            Flight::Nothing => gate,
            Flight::Record(next) | Flight::Image(next) => next,
        }
    }
}
