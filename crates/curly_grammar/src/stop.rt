ghost use Rattle.std.specs.Prelude.{◌≡◌};
ghost use Rattle.curly_grammar.specs.declared.stop.Stop.TheVariants.{NoMemory};

use crate::fault::Why;
use cfg_base::NoMemory;
use std::alloc::{AllocError, AllocFailed};

/// Why a token isn't taken: no text of the grammar goes on so, or memory ran out.
#[derive(Clone, Copy, Debug, PartialEq, Eq)]
pub(crate) enum Stop {
    Refused(Why),
    NoMemory,
}

impl From<AllocError> for Stop {
    ghost from_gives = { λ _ stop. stop ≡ NoMemory };

    fn from(_: AllocError) -> Stop {
        Stop::NoMemory
    }
}

impl<T: Drop> From<AllocFailed<T>> for Stop {
    ghost from_gives = { λ _ stop. stop ≡ NoMemory };

    fn from(_: AllocFailed<T>) -> Stop {
        Stop::NoMemory
    }
}

impl From<NoMemory> for Stop {
    ghost from_gives = { λ _ stop. stop ≡ NoMemory };

    fn from(_: NoMemory) -> Stop {
        Stop::NoMemory
    }
}
