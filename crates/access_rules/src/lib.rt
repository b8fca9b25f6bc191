//! What the users of a run may do: the rights of a user's login class, and what each command needs of them.
//!
//! Guarantees: a user's rights are those that the user's class has in the expansion of the active configuration; a
//! command is allowed exactly where the user has each right that it needs, and is else denied by the first one that is
//! missing; an allowed show tells nothing of what the rights don't let see.
//! Leaves to others: when a command is asked, and on which configuration (`session_threads`), and what it does
//! (`config_core`).
#![tactic(auto)]

mod allowing;
mod fault;
mod laws;
mod lookup;
mod needs;
mod right;
mod rights;
mod section;

pub use allowing::allows;
pub use fault::AccessFault;
pub use laws::{
    root_may_ask_all, shows_tell_what_is_seen, statements_are_of_one_section, who_changes_sees,
};
pub use needs::needs_no_right;
pub use right::Right;
pub use rights::Rights;
pub use section::Section;
