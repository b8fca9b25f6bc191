//! Which statements a configuration may have: the profile's rows, and the row that a word begins.
//!
//! Guarantees: `child` and `row` answer from one table, in which a head comes before a bare name, no two
//! rows of a level begin alike, apply statements stand at each level outside groups that has other
//! rows, and inside a group stand neither they nor groups; a path that follows rows has at most 9 steps.
//! Leaves to others: whether a name or a value is of its kind (`cfg_values`), and what stands in a
//! configuration (`cfg_tree`).
#![tactic(auto)]

mod answer;
mod keyword;
mod laws;
mod level;
mod list;
mod lookup;
mod place;
mod query;
mod rows;
mod search;
mod table;
mod words;

pub use answer::Child;
pub use laws::rows_are_sound;
pub use list::rows_below;
pub use lookup::{child, fixed_name, head, row};
pub use place::Place;
pub use rows::{Row, RowId};
pub use words::RowWords;
