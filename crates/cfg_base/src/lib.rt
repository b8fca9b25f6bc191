//! The words of the configuration service: bounded words, ordered paths, users and moments.
//!
//! Guarantees: a word has at most 255 bytes and a path at most 16 steps; words, steps and paths have
//! one total order, by bytes; a copy equals its source.
//! Leaves to others: what a word means (`cfg_values`, `cfg_schema`), and what a session asks
//! (`commands`).
#![tactic(auto)]

mod blocks;
mod bytes;
mod calls;
mod fault;
mod joining;
mod kind;
mod limits;
mod lookup;
mod moment;
mod order;
mod path;
mod shared;
mod user;
mod value;
mod word;
mod word_blocks;
mod word_list;
mod words;

pub use bytes::Bytes;
pub use calls::Calls;
pub use fault::NoMemory;
pub use joining::joined_is_the_union;
pub use kind::{Choice, Kind, Shape};
pub use limits::{Limits, limits_are_stated};
pub use lookup::learn;
pub use moment::{MOMENT_MAX, Moment};
pub use order::same_bytes;
pub use path::{MAX_STEPS, Path, PathFault, Step};
pub use shared::{MAX_ITEMS, Shared};
pub use user::{UserName, Users, is_name};
pub use value::Value;
pub use word::{MAX_BYTES, Word, WordFault};
pub use word_list::{WordList, WordsLeft};
pub use words::Words;
