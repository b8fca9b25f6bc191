use crate::rows::RowId;

/// What a word begins.
#[derive(Clone, Copy, Debug, PartialEq, Eq)]
pub enum Child {
    /// A statement of that row.
    Row(RowId),
    /// A Fixed row has the word as its head, and not the next word as its name.
    BadName(RowId),
    /// No row takes the word.
    Unknown,
}
