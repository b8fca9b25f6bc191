//! The kinds of records.

/// A commit, as it was written formerly.
pub(crate) const FORMER_COMMIT: u8 = 1;

/// A confirmation.
pub(crate) const CONFIRM: u8 = 2;

/// A checkpoint's first record.
pub(crate) const KEEP: u8 = 3;

/// A commit, as it is written.
pub(crate) const COMMIT: u8 = 4;

/// A commit that is set for a later time.
pub(crate) const SCHEDULED: u8 = 5;

/// A scheduled commit that was called off.
pub(crate) const CLEARED: u8 = 6;
