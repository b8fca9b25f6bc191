//! The journal of two files, which survives a crash at any device write.
//!
//! Guarantees: a list of records on two disks, A and B, of which one counts. After `append` is Ok each
//! crash leaves the record, and a crash at any moment of a call leaves the list from before it, with
//! the record or without. A rotation makes other records the list, in the other file: a crash at any
//! moment of it leaves the old list or the new one.
//!
//! The rules of the two files, each with what says it:
//! 1. `create` writes B's header and syncs; then A with its file gate closed, syncs, opens the gate
//!    and syncs. It never writes a journal that is there (`IsCreated`: `made_a`, `made_b`;
//!    `IsNotCreated`: `spared`, `unchanged`, `part_a`, `part_b`, `b_first`).
//! 2. `attach` syncs each disk once, writes nothing, and reads what the files spell. It refuses files
//!    exactly for what their bytes are (`IsAttached`: `spelled`, `synced_a`, `synced_b`, `free`;
//!    `IsNotAttached`: `explained`, `owed`).
//! 3. `append` writes the record after the closed gate and syncs, then opens the gate and syncs, and
//!    stops at the first call that fails. It calls the file that counts alone (`IsAppended`: `made`;
//!    `IsAppendFaulted`: `part`; `IsAppendSafe`: `other_is`).
//! 4. A crash at any moment of an append leaves the old list or the new one; after Ok it leaves the
//!    new one (`IsAppendSafe`: `crash`; `IsAppended`: `only`).
//! 5. `rotate` closes the gate of the other file and syncs, where that gate is open, and writes no gate
//!    that is closed; it writes the next generation and the records there and syncs; it opens the gate
//!    and syncs. It stops at the first call that fails, and calls the other file alone (`IsRotated`:
//!    `made`, `other_is`; `IsRotateFaulted`: `part`, `counting_is`).
//! 6. A crash at any moment of a rotation leaves the old list or that of the image; after Ok it leaves
//!    the image's (`IsRotateSafe`: `crash`; `IsRotated`: `only`).
//! 7. `settle` syncs each disk once and writes nothing. Of a record it answers by the gate that it then
//!    reads; after a rotation it chooses the file anew, by the other file's gate and generation
//!    (`IsSettleSafe`: `may_a`, `may_b`, `crash`; `IsSettledAs`: `by_gate`, `only`, `by_header`,
//!    `image_only`).
//! 8. A disk's fault is answered only where its count of faults rose, and no count falls (`cause` of
//!    each call; `IsOpened`: `later_a`, `later_b`).
//! 9. Each disk's calls are counted from the opening on (`IsOpened`: `no_calls`; `Counts`; `calls`).
//!
//! Its states, and the calls that move between them:
//! - Nothing is in flight (`Has`): after `create` and `attach`, after an `append` or a `rotate` that is
//!   Ok, and after a `settle` that is Ok. Each crash leaves the list. Only here `append` and `rotate`
//!   may be called.
//! - A record is in flight (`Awaits`): after an `append` that met a fault, and after a `settle` of it
//!   that did. A crash leaves the list with the record or without. Only `settle` may be called.
//! - An image is in flight (`AwaitsImage`): after a `rotate` that met a fault, and after a `settle` of
//!   it that did. A crash leaves the list or the image's. Only `settle` may be called.
//!
//! Leaves to others: that a real file behaves as `disk_model` says, what a crash inside `create`
//! leaves, what a payload means, which records an image has, and when to rotate.
#![tactic(auto)]

mod appending;
mod attaching;
mod causes;
mod choosing;
mod creating;
mod fault;
mod flight;
mod header;
mod journal;
mod opening;
mod reading;
mod rotating;
mod settling;
mod why;

pub use attaching::AttachFault;
pub use causes::causes_exclude_each_other;
pub use cfg_base::Calls;
pub use fault::DiskFault;
pub use flight::Flight;
pub use journal::Journal;
pub use settling::Settled;
pub use why::{AttachWhy, CreateFault, CreateWhy};
