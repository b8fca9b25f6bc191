//! Configurations as JSON, both ways.
//!
//! Guarantees: `write` gives the compact text of the JSON of a configuration (specs/Written.antt), and a line feed. `read`
//! gives the configuration that a text says (specs/Said.antt), or the first fault of the text (specs/Faults.antt), and
//! what was written is read back. A text is read as one configuration, or it has one fault.
//! Leaves to others: what JSON is and how a value is laid out (`serde_json`), in which order statements are printed
//! (`printing_order`), and which words a configuration has (`cfg_tree`).
#![tactic(auto)]

mod building;
mod checker;
mod collected;
mod collecting;
mod fault;
mod here;
mod key;
mod laws;
mod marks;
mod names;
mod reading;
mod refusal;
mod spelling;
mod words;
mod words_in;
mod writer;
mod writing;

pub use fault::{JsonFault, ReadFault};
pub use laws::{
    faulty_values_say_nothing, fitting_members_say_statements, texts_have_one_answer,
    values_say_configurations,
};
pub use reading::read;
pub use writing::write;

#[cfg(test)]
mod tests;
