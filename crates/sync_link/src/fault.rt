use thiserror::Error;

/// Why a message isn't taken.
#[derive(Clone, Copy, Debug, PartialEq, Eq, Error)]
pub enum TakeFault {
    #[error("a disk failed")]
    DiskFault,
    #[error("out of memory")]
    NoMemory,
}
