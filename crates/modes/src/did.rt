use stored_ledger::StartWhy;

/// Why a start was refused, if it was.
#[derive(Clone, Copy, Debug, PartialEq, Eq)]
pub enum StartWhy0 {
    None,
    Why(StartWhy),
}

/// What a mode came to: its status, why its start was refused, if it was, and the disks.
#[derive(Drop)]
pub struct Did<D> {
    pub status: u8,
    pub why: StartWhy0,
    pub a: D,
    pub b: D,
}
