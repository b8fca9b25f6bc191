//! In which order statements are printed.
//!
//! Guarantees: `items_below` lists the statements below a path in printing order, each with how many of those right after
//! it stand in it (specs/Listed.antt); `statements_below` gives them in the order of paths, of which those inside one of
//! them stand right after it (`front_inside`, specs/Inside.antt).
//! Leaves to others: which order the children of a path have (`cfg_tree`), and what is printed of each
//! (`curly_print`, `set_text`).
#![tactic(auto)]

mod item;
mod lister;
mod named;
mod statements;

pub use item::Item;
pub use lister::items_below;
pub use named::named_child;
pub use statements::{Statement, front_inside, statements_below};
