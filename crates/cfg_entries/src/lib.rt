//! Values by their paths, in the order of paths, in pages and blocks that copies share.
//!
//! Guarantees: a map is the list of its entries in the order of their paths; a change that runs out of memory
//! leaves the map as it was; a copy equals its source, and shares what doesn't change.
//! Leaves to others: which paths and values may stand in a map (`cfg_tree`).
#![tactic(auto)]

mod blocks;
mod cut;
mod entries;
mod entry;
mod layers;
mod maker;
mod older;
mod pages;
mod pieces;
mod place;
mod rest;
mod sharing;
mod splice;

pub use entries::Entries;
pub use entry::Entry;
pub use maker::Maker;
pub use rest::Rest;
pub use sharing::Same;
