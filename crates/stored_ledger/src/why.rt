use thiserror::Error;

/// Why a list of commits can't be opened on two disks, or made on them.
#[derive(Clone, Copy, Debug, PartialEq, Eq, Error)]
pub enum StartWhy {
    #[error("a journal is there already")]
    Exists,
    #[error("not a journal")]
    NotAJournal,
    /// The first record whose digest isn't that of its bytes.
    #[error("the record at {offset} is damaged")]
    Damaged {
        offset: u64,
        kept: [u8; 32],
        computed: [u8; 32],
    },
    /// The first record that breaks a rule of the list, by the place of its gate.
    #[error("the record at {offset} breaks a rule")]
    BadRecord {
        offset: u64,
    },
    #[error("a disk failed")]
    DiskFault,
    #[error("out of memory")]
    NoMemory,
}

/// Why a list of commits can't be opened or made, with the disks.
#[derive(Drop)]
pub struct StartFault<D> {
    pub why: StartWhy,
    pub a: D,
    pub b: D,
}
