//! The database of the configuration service: the machine, with each of its entries in the journal before it is answered.
//!
//! Guarantees: a database begins over the list of commits that two disks spell, or over one that is made of the factory commit
//! (specs/Starting.antt). What happened is a legal history over that list, with one reply a command, the machine's; the journal
//! holds what the state keeps, and the entry that is in flight; a disk's fault is reported only where a disk's count of faults rose
//! in the call (specs/Answers.antt, specs/Closing.antt). A crash at any moment since the opening leaves on the disks what was
//! kept by then, or that with the entry of that moment (specs/Crash.antt). Readers are shown what was kept at some moment of the
//! run, and never what is only in flight (specs/Shown.antt). The events add one list of entries, each of which may be the next one, and
//! the newest of them are held as values for who asks for them (specs/Added.antt, specs/Appended.antt).
//! Leaves to others: how two files become a journal with its list (`stored_ledger`), how a reader reads and that a publish reaches it
//! (`active_snapshot`), what a session is, and who calls when.
//!
//! The order of a turn, each step in one method:
//! 1. What was kept and couldn't be published is published (`publish_late`). Where memory runs out for that, nothing else is done.
//! 2. What is in flight is settled (`settle`). Where a disk fails, it stays in flight and the command is put off, which was made
//!    ready before (`settle_or_put_off`).
//! 3. What is due is done (`do_due`): a missed deadline is reverted, or the scheduled commit is made whose time has come; never
//!    both. Where a disk fails, that is in flight and the command is put off.
//! 4. The command is prepared, the view after its entry is proposed, the entry is written, the view is kept and published, and the
//!    command is carried out (`carry_out`). Where a disk fails the entry is in flight, its view waits, and the command is answered so.
//!
//! All memory of an event is taken before its first device call, but for the copy of its entry, where entries are held
//! (src/holding.rt): that is taken once the entry is written, and where memory runs out for it no event fails. After an entry in
//! flight there is room for its settling, so that `close` needs none.
#![tactic(auto)]

mod answer;
mod closing;
mod database;
mod holding;
mod laws;
mod serving;
mod showing;
mod starting;
mod turning;
mod writing;

pub use answer::{Answered, ClosedBook, Ticked};
pub use database::Database;
pub use holding::MOST_HELD;
pub use laws::events_add_one_list;
