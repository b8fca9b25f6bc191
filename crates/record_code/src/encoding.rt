ghost use Rattle.std.specs.Prelude.{◌≡◌, ◌≤◌, ◌++◌, [], ◌∷◌, length, OnOk, IfOk};
ghost use Rattle.record_code.specs.Record.{body, most_payload};
ghost use Rattle.record_code.specs.declared.encoding.TheConstants.{MAX_PAYLOAD};

use crate::encoded::Encoded;
use crate::readers::digest_of;
use cfg_base::{Bytes, NoMemory};
use std::alloc::Global;

/// The most bytes that a payload has.
pub const MAX_PAYLOAD: usize = 1_049_600;

/// The limit of the format is the one that is tested, by its number.
pub fn limits_are_stated()
    ensures payload { MAX_PAYLOAD ≡ most_payload }
    ensures number { most_payload ≡ 1049600 }
{}

// An open gate.
pub(crate) const OPEN: u8 = 1;

// A closed one.
const CLOSED: u8 = 0;

// The bytes of a record beside its payload: the gate before it, kind, length, digest and the next gate.
const OVERHEAD: usize = 39;

/// Puts a record after the open gate that is last: kind, length, payload, digest and a closed gate.
pub(crate) fn add_body(bytes: &mut Vec<u8>, kind: u8, payload: &[u8]) -> Result<(), NoMemory>
    requires { length payload.now ≤ most_payload }
    ensures { OnOk result (bytes.new.items ≡ bytes.old.items ++ body 0 (record { kind = kind; payload = payload.now })) }
{
    let from = bytes.len();
    bytes.push(kind)?;
    bytes.extend_from_slice(&(payload.len() as u32).to_be_bytes())?;
    bytes.extend_from_slice(payload)?;
    let digest = digest_of(&bytes[from..]);
    bytes.extend_from_slice(&digest)?;
    bytes.push(CLOSED)?;
    Ok(())
}

/// One record of that kind with that payload.
pub fn encode(alloc: Global, kind: u8, payload: &Bytes) -> Result<Encoded, NoMemory>
    requires { length payload.now ≤ most_payload }
    ensures { IfOk result (λ e. e ≡ record { kind = kind; payload = payload.now } ∷ []) }
{
    let payload = payload.as_slice();
    let mut bytes = Vec::with_capacity(alloc, payload.len() + OVERHEAD)?;
    bytes.push(OPEN)?;
    add_body(&mut bytes, kind, payload)?;
    Ok(Encoded { bytes })
}
