ghost use Rattle.std.specs.Prelude.{◌≡◌};
ghost use Rattle.commit_journal.specs.declared.why.AttachWhy.TheVariants.{NoMemory as AttachNoMemory};

use cfg_base::NoMemory;
use std::alloc::AllocError;
use thiserror::Error;

/// Why two files can't be opened as a journal.
#[derive(Clone, Copy, Debug, PartialEq, Eq, Error)]
pub enum AttachWhy {
    #[error("not a journal")]
    NotAJournal,
    /// The first record whose digest isn't that of its bytes.
    #[error("the record at {offset} is damaged")]
    Damaged {
        offset: u64,
        kept: [u8; 32],
        computed: [u8; 32],
    },
    #[error("a disk failed")]
    DiskFault,
    #[error("out of memory")]
    NoMemory,
}

impl From<AllocError> for AttachWhy {
    ghost from_gives = { λ _ why. why ≡ AttachNoMemory };

    fn from(_: AllocError) -> AttachWhy {
        AttachWhy::NoMemory
    }
}

impl From<NoMemory> for AttachWhy {
    ghost from_gives = { λ _ why. why ≡ AttachNoMemory };

    fn from(_: NoMemory) -> AttachWhy {
        AttachWhy::NoMemory
    }
}

/// Why a journal can't be made in two files.
#[derive(Clone, Copy, Debug, PartialEq, Eq, Error)]
pub enum CreateWhy {
    #[error("a journal is there already")]
    Exists,
    #[error("a disk failed")]
    DiskFault,
    #[error("out of memory")]
    NoMemory,
}

/// Why a journal can't be made, with the disks.
#[derive(Drop)]
pub struct CreateFault<D> {
    pub why: CreateWhy,
    pub a: D,
    pub b: D,
}
