ghost use Rattle.std.specs.Prelude.{◌≡◌};
ghost use Rattle.cfg_base.specs.declared.word.WordFault.TheVariants as fault;
ghost use Rattle.command_line.specs.declared.usage.Usage.TheVariants.{Refused, NoMemory};
ghost use Rattle.command_line.specs.Causes.{usage_of_word};

use cfg_base::{NoMemory, WordFault};
use std::alloc::{AllocError, AllocFailed};
use thiserror::Error;

/// Why words are not read.
#[derive(Clone, Copy, Debug, PartialEq, Eq, Error)]
pub enum Usage {
    /// The words ask nothing that the program does.
    #[error("usage: confd [--access] [--user NAME] [--input N] [--journal-limit N] init|serve|check|gen PLACE [USER:FILE ..]")]
    Refused,
    #[error("out of memory")]
    NoMemory,
}

impl From<NoMemory> for Usage {
    ghost from_gives = { λ _ usage. usage ≡ NoMemory };

    fn from(_: NoMemory) -> Usage {
        Usage::NoMemory
    }
}

impl From<AllocError> for Usage {
    ghost from_gives = { λ _ usage. usage ≡ NoMemory };

    fn from(_: AllocError) -> Usage {
        Usage::NoMemory
    }
}

impl<T: Drop> From<AllocFailed<T>> for Usage {
    ghost from_gives = { λ _ usage. usage ≡ NoMemory };

    fn from(_: AllocFailed<T>) -> Usage {
        Usage::NoMemory
    }
}

impl From<WordFault> for Usage {
    ghost from_gives = { λ fault usage. usage ≡ usage_of_word fault };

    fn from(fault: WordFault) -> Usage {
        match fault {
            WordFault::LongWord => Usage::Refused,
            WordFault::NoMemory => Usage::NoMemory,
        }
    }
}
