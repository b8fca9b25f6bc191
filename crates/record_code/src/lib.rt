//! The bytes of journal records, and what a journal file spells.
//!
//! Guarantees: `encode` and `with` give exactly the bytes of the format, with open gates between
//! records and a closed one at their end; the readers take kind, length and digest from bytes that
//! begin at the kind.
//! Leaves to others: files and crashes (`commit_journal`), and what a payload means
//! (`commit_ledger`). That `sha2` computes SHA-256 of FIPS 180-4 is that crate's promise.
#![tactic(auto)]

mod encoded;
mod encoding;
mod payloads;
mod readers;

pub use encoded::Encoded;
pub use encoding::{MAX_PAYLOAD, encode, limits_are_stated};
pub use payloads::{Payloads, Placed};
pub use readers::{digest_of, kind_of, length_of};
