//! The machine of the configuration service: one event at a time, with its reply.
//!
//! Guarantees: `prepare` then `accept` is exactly one step of the machine (specs/Machine.antt);
//! `prepare` changes nothing and takes all memory, `accept` can't fail and takes none. The active configuration is accepted
//! at the beginning and after every step (src/laws.rt).
//! Leaves to others: which statement words name (`cfg_resolve`), what a change makes of the statements (`edit_ops`) and
//! of a candidate (`candidate`), what a private candidate makes of the active configuration (`private_merge`), what
//! groups bring (`group_expand`), which configurations are accepted (`commit_check`), how statements are printed
//! (`curly_print`, `set_text`), where events come from and what is kept of them (`session_history`, `service`), and how
//! a reply is written (`reply_text`).
#![tactic(auto)]

mod access;
mod caller;
mod committing;
mod core_state;
mod editing;
mod effect;
mod event;
mod laws;
mod moving;
mod own;
mod position;
mod prepared;
mod refusing;
mod reply;
mod scheduling;
mod settling;
mod showing;
mod status;
mod viewing;

pub use caller::Caller;
pub use core_state::Core;
pub use effect::{Appending, Effect, Fresh, Maker};
pub use event::{Event, Need, Outcome};
pub use laws::{
    active_configuration_stays_accepted, levels_are_told, others_stay_where_they_are,
    private_sessions_edit_their_own, rollback_0_leaves_nothing_modified, steps_have_one_outcome,
};
pub use position::Position;
pub use prepared::Prepared;
pub use reply::{Refusal, Reply};
pub use showing::show_active;
