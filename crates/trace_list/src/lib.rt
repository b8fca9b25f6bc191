//! A list that clauses read: what was noted, in order. Its values are kept only where that is asked at its making; else it
//! takes no memory, however much is noted.
//!
//! Guarantees: contracts see the list of all that was noted, and room for more is taken before and never by a note.
//! Leaves to others: what is noted, and when.
#![tactic(auto)]

mod trace;

pub use trace::{MOST, Trace};

#[cfg(test)]
mod tests;
