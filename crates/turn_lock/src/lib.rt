//! A lock that serves callers in the order of their tickets, over a value that keeps a history.
//!
//! Guarantees: a turn runs its deed once, on the value as the turns before it left it. Its history then
//! begins with all that the caller had seen; afterwards the caller has seen it with the deed's entries
//! last. A closed lock gives back the value, whose history has of each caller just what its turns made.
//!
//! The lock has three words, the next ticket, the ticket that is served and the length of the entered
//! history, and one slot for the value. A turn is six atomic steps on them, in this order:
//! 1. draw: the next ticket is the caller's (`draw`).
//! 2. look: where the ticket served is the caller's, the value goes out to the caller, who has then seen
//!    the whole entered history (`wait`). Between two looks in vain the caller rests, and soon sleeps.
//! 3. take: nothing is left in the slot (`take`); then the deed runs.
//! 4. put: the value lies in the slot again, and is still out (`put`).
//! 5. enter: the deed's entries are part of the entered history (`enter`). Put comes first, so that the
//!    step can tell which entries these are.
//! 6. pass on: the value is home, and the next ticket is served (`pass_on`). After it the caller of that
//!    ticket is woken, where it sleeps (src/bell.rt).
//!
//! Two more steps make a new pass (`split`) and end one (`join`). What holds between any two steps of any
//! callers is `LockRule` (specs/Rule.antt).
//!
//! Leaves to others: what the value, its entries and the deeds are.
#![tactic(auto)]

mod bell;
mod book;
mod laws;
mod lock;
mod pass;
mod rule;
mod turning;
mod view;

pub use book::{Book, Deed};
pub use laws::{closed_locks_know_each_entry, turns_have_one_account};
pub use lock::{NoTurns, Turns};
pub use pass::Pass;
pub use view::Ended;

#[cfg(test)]
mod tests;
