ghost use Rattle.std.specs.Prelude.{◌≡◌};
ghost use Rattle.load_ops.specs.declared.fault.LoadFault.TheVariants.{NoMemory};

use cfg_base::{NoMemory, Path};
use curly_grammar::TextFault;
use edit_ops::EditFault;
use set_text::LineFault;
use std::alloc::{AllocError, AllocFailed};
use thiserror::Error;

/// Why a load isn't made.
#[derive(Debug, Drop, PartialEq, Eq, Error)]
pub enum LoadFault {
    #[error("the curly text isn't read")]
    Text(TextFault),
    #[error("a line of the text asks for no change")]
    Line(LineFault),
    /// The number of the line counts from 1.
    #[error("the change of line {line} isn't made")]
    Edit { line: u32, fault: EditFault },
    #[error("the statement is protected")]
    Protected(Path),
    #[error("more than 16384 statements")]
    TooMany,
    #[error("out of memory")]
    NoMemory,
}

impl From<NoMemory> for LoadFault {
    ghost from_gives = { λ _ fault. fault ≡ NoMemory };

    fn from(_: NoMemory) -> LoadFault {
        LoadFault::NoMemory
    }
}

impl From<AllocError> for LoadFault {
    ghost from_gives = { λ _ fault. fault ≡ NoMemory };

    fn from(_: AllocError) -> LoadFault {
        LoadFault::NoMemory
    }
}

impl<T: Drop> From<AllocFailed<T>> for LoadFault {
    ghost from_gives = { λ _ fault. fault ≡ NoMemory };

    fn from(_: AllocFailed<T>) -> LoadFault {
        LoadFault::NoMemory
    }
}
