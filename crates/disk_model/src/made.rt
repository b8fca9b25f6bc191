/// A call of `write_at` or `sync`, as the record of a disk in memory shows it.
#[derive(Clone, Copy, Debug, PartialEq, Eq)]
pub enum Made<'a> {
    /// Bytes at a place, which took effect.
    Wrote { at: u64, bytes: &'a [u8] },
    /// So many bytes at a place, which took no effect.
    Missed { at: u64, count: usize },
    /// A sync, and whether nothing was pending after it.
    Synced { cleared: bool },
    /// A failed call past twice the stated number, of which only the count is kept.
    TurnedDown,
}
