ghost use Rattle.std.specs.Prelude.{◌≡◌};
ghost use Rattle.edit_ops.specs.Answer.{edit_fault};
ghost use Rattle.edit_ops.specs.Made.{fault_of_put, fault_of_copy};
ghost use Rattle.edit_ops.specs.declared.fault.EditFault.TheVariants.{NoMemory};

use cfg_base::{NoMemory, Path};
use cfg_resolve::WordsFault;
use cfg_tree::{CopyFault, TreeFault};
use std::alloc::{AllocError, AllocFailed};
use thiserror::Error;

/// Why a change isn't made. The path is that of the statement in question.
#[derive(Debug, Drop, PartialEq, Eq, Error)]
pub enum EditFault {
    #[error("no statement has the last word")]
    Unknown(Path),
    #[error("a name or a value isn't of its kind")]
    BadValue(Path),
    #[error("a name or a value is missing, or there are no words")]
    Incomplete(Path),
    #[error("words follow the end of a statement")]
    Extra(Path),
    #[error("the statement has no other name like this")]
    NotNamed(Path),
    #[error("the statement isn't one of an ordered list")]
    NotOrdered(Path),
    #[error("the statement, or a word of it, isn't there")]
    NotThere(Path),
    #[error("the statement is there already")]
    AlreadyThere(Path),
    #[error("the statement is protected")]
    Protected(Path),
    #[error("more than 16384 statements")]
    TooMany,
    #[error("out of memory")]
    NoMemory,
}

impl From<NoMemory> for EditFault {
    ghost from_gives = { λ _ fault. fault ≡ NoMemory };

    fn from(_: NoMemory) -> EditFault {
        EditFault::NoMemory
    }
}

impl From<AllocError> for EditFault {
    ghost from_gives = { λ _ fault. fault ≡ NoMemory };

    fn from(_: AllocError) -> EditFault {
        EditFault::NoMemory
    }
}

impl<T: Drop> From<AllocFailed<T>> for EditFault {
    ghost from_gives = { λ _ fault. fault ≡ NoMemory };

    fn from(_: AllocFailed<T>) -> EditFault {
        EditFault::NoMemory
    }
}

impl From<WordsFault> for EditFault {
    ghost from_gives = { λ why fault. fault ≡ edit_fault why };

    fn from(why: WordsFault) -> EditFault {
        match why {
            WordsFault::Unknown(path) => EditFault::Unknown(path),
            WordsFault::BadValue(path) => EditFault::BadValue(path),
            WordsFault::Incomplete(path) => EditFault::Incomplete(path),
            WordsFault::Extra(path) => EditFault::Extra(path),
            WordsFault::NoMemory => EditFault::NoMemory,
        }
    }
}

impl From<TreeFault> for EditFault {
    ghost from_gives = { λ why fault. fault ≡ fault_of_put why };

    fn from(why: TreeFault) -> EditFault {
        match why {
            TreeFault::Unknown(path) => EditFault::Unknown(path),
            TreeFault::BadValue(path) => EditFault::BadValue(path),
            TreeFault::TooMany => EditFault::TooMany,
            TreeFault::NoMemory => EditFault::NoMemory,
        }
    }
}

impl From<CopyFault> for EditFault {
    ghost from_gives = { λ why fault. fault ≡ fault_of_copy why };

    fn from(why: CopyFault) -> EditFault {
        match why {
            CopyFault::TooMany => EditFault::TooMany,
            CopyFault::NoMemory => EditFault::NoMemory,
        }
    }
}
