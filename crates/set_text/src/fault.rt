ghost use Rattle.std.specs.Prelude.{◌≡◌, min};
ghost use Rattle.set_text.specs.declared.fault.LineFault.TheVariants.{NoMemory};

use std::alloc::{AllocError, AllocFailed};
use thiserror::Error;

/// Why a text of lines asks for nothing.
#[derive(Clone, Copy, Debug, PartialEq, Eq, Error)]
pub enum LineFault {
    /// The first line of no form, counted from 1, and the byte in it that doesn't fit, counted from 0. Numbers past
    /// 2^32 - 1 are reported as 2^32 - 1.
    #[error("line {line}: syntax error at byte {place}")]
    Line { line: u32, place: u32 },
    #[error("out of memory")]
    NoMemory,
}

impl From<AllocError> for LineFault {
    ghost from_gives = { λ _ fault. fault ≡ NoMemory };

    fn from(_: AllocError) -> LineFault {
        LineFault::NoMemory
    }
}

impl<T: Drop> From<AllocFailed<T>> for LineFault {
    ghost from_gives = { λ _ fault. fault ≡ NoMemory };

    fn from(_: AllocFailed<T>) -> LineFault {
        LineFault::NoMemory
    }
}
