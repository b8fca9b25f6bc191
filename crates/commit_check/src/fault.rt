//! Why a configuration isn't accepted.

use cfg_base::Path;
use thiserror::Error;

/// Why a configuration isn't accepted.
#[derive(Debug, Drop, PartialEq, Eq, Error)]
pub enum CheckFault {
    /// The rule of this number doesn't hold at this path, and at no lesser path; all rules of lower numbers hold.
    #[error("a rule of commit check doesn't hold")]
    Rule { number: u8, path: Path },
    #[error("out of memory")]
    NoMemory,
}
