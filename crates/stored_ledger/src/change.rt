/// How a list of commits is made another one.
#[derive(Clone, Copy, Debug, PartialEq, Eq)]
pub enum Change {
    /// By one more entry.
    Entry,
    /// By a whole list in its place.
    Whole,
}
