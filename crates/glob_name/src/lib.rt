//! Whether a wildcard pattern matches a name.
//!
//! Guarantees: `matches` answers true exactly where the name can be cut into pieces that fit the items of the pattern.
//! Leaves to others: which words are wildcards (`cfg_values`), and what a match lets a statement inherit.
#![tactic(auto)]

mod class;
mod front;
mod laws;
mod scan;

pub use laws::patterns_are_sound;
pub use scan::matches;

#[cfg(test)]
mod tests;
