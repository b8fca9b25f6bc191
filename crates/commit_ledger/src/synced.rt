/// What is known of a backup's list after an attempt to bring it up to date.
#[derive(Clone, Copy, Debug, PartialEq, Eq)]
pub enum Synced {
    /// It has all the entries, which are so many.
    All { count: u64 },
    /// So many of the entries are known to be there.
    Behind { acknowledged: u64, count: u64 },
    /// There is no backup.
    Alone,
}
