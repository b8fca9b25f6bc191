//! What was a configuration before there was a second profile is one still: it is accepted, expanded and printed as it was.
//!
//! Guarantees: a law over all configurations that the rows of the first profile and the rules up to number 12 accepted.
//! Leaves to others: how a list that holds such configurations is read (`commit_ledger`).
#![tactic(auto)]

mod laws;

pub use laws::what_was_accepted_is_accepted;
