use cfg_base::{Step, Words};
use cfg_schema::Place;

/// Why the words at the front are refused.
#[derive(Clone, Copy, Debug, PartialEq, Eq)]
pub enum Why {
    Unknown,
    BadValue,
    Incomplete,
    Extra,
}

/// What the words at the front say below a place.
#[derive(Debug, Drop)]
pub enum Front {
    /// They enter a level: its step, its place, and how many words it takes.
    Level(Step, Place, usize),
    /// They are a whole statement that isn't a level, with the words of its value.
    Statement(Step, Words),
    /// They are refused at this step.
    Refused(Why, Step),
}
