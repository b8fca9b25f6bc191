//! Which bytes are a spelling of a kind of value, and the one spelling in which each value is kept.
//!
//! Guarantees: a spelling stands for one value of its kind, and each value has one canonical
//! spelling, which reads as itself; bytes are refused exactly where they are no spelling.
//! Leaves to others: which kind a statement takes (`cfg_schema`), and where a wildcard name may
//! stand (`cfg_tree`).
#![tactic(auto)]

mod address;
mod address6;
mod choice;
mod cut;
mod fault;
mod interface;
mod laws;
mod number;
mod octets;
mod pattern;
mod plain;
mod value;

pub use fault::ValueFault;
pub use laws::spellings_stand_for_one_value;
pub use pattern::is_pattern;
pub use value::read_value;
