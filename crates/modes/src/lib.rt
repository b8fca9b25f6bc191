//! The modes that serve no session: a journal that is made, a journal that is checked, and what is reported of a configuration
//! that was generated.
//!
//! Guarantees: what a mode writes is a function of what the disks hold, or of a number; it is cut only where the sink's count
//! of faults rose. A refused start writes nothing, and its status is that of its cause.
//! Leaves to others: the list on the disks (`stored_ledger`), how a generated configuration is loaded and committed, and the
//! words that name a mode (`service`).
#![tactic(auto)]

mod did;
mod generated;
mod number;
mod starting;
mod telling;
mod text;

pub use did::{Did, StartWhy0};
pub use generated::configuration_text;
pub use number::number_of;
pub use starting::{check, init, status_of_start};
pub use telling::tell;
pub use text::gen_text;
