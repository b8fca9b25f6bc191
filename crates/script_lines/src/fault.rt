use cfg_base::{NoMemory, PathFault, WordFault};
use std::alloc::{AllocError, AllocFailed};

/// Why a line has no answer.
#[derive(Clone, Copy)]
pub enum Fault {
    /// It isn't one of the form's lines; the text says what is expected.
    Script(&'static str),
    NoMemory,
}

impl From<AllocError> for Fault {
    fn from(_: AllocError) -> Fault {
        Fault::NoMemory
    }
}

impl<T: Drop> From<AllocFailed<T>> for Fault {
    fn from(_: AllocFailed<T>) -> Fault {
        Fault::NoMemory
    }
}

impl From<NoMemory> for Fault {
    fn from(_: NoMemory) -> Fault {
        Fault::NoMemory
    }
}

impl From<WordFault> for Fault {
    fn from(fault: WordFault) -> Fault {
        match fault {
            WordFault::LongWord => Fault::Script("a word has at most 255 bytes"),
            WordFault::NoMemory => Fault::NoMemory,
        }
    }
}

impl From<PathFault> for Fault {
    fn from(fault: PathFault) -> Fault {
        match fault {
            PathFault::TooDeep => Fault::Script("a path has at most 16 steps"),
            PathFault::NoMemory => Fault::NoMemory,
        }
    }
}
