ghost use Rattle.std.specs.Prelude.{◌≡◌, ◌≤◌, ◌<◌, ◌++◌, ◌∷◌, [], All, length, IfOk};
ghost use Rattle.record_code.specs.Record.{bodies, gated, most_payload, IsSound};

use crate::encoding::{OPEN, add_body};
use cfg_base::{Bytes, NoMemory};
use std::marker::Model;

/// Records as the bytes that stand in a file, with the open gate before the first one.
#[derive(Debug, Drop)]
pub struct Encoded {
    pub(crate) bytes: Vec<u8>,
}

impl Model for Encoded {
    ghost use Rattle.std.specs.Prelude.{List};
    ghost use Rattle.record_code.specs.Record.{Record, records_behind, IsGated};

    ghost Value = { List Record };

    ghost view = { λ e. records_behind e.bytes.items };

    ghost invariant = { λ e. IsGated e.bytes.items };
}

impl Encoded {
    /// These records and one more of that kind with that payload after them.
    pub fn with(self, kind: u8, payload: &Bytes) -> Result<Encoded, NoMemory>
        requires { length payload.now ≤ most_payload }
        ensures { IfOk result (λ e. e ≡ self ++ record { kind = kind; payload = payload.now } ∷ []) }
    {
        let mut bytes = self.bytes;
        bytes.pop();
        bytes.push(OPEN)?;
        add_body(&mut bytes, kind, payload.as_slice())?;
        Ok(Encoded { bytes })
    }

    /// The bytes after the first gate, from the first kind byte to the closed gate at their end.
    pub fn as_bytes(&self) -> &[u8]
        ensures bytes { result.now ≡ bodies self.now }
        ensures sound { All IsSound self.now }
    {
        &self.bytes[1..]
    }

    /// The bytes with the open gate before them, as they stand from byte 17 of a file on.
    pub fn with_gate(&self) -> &[u8]
        ensures bytes { result.now ≡ gated (bodies self.now) }
        ensures sound { All IsSound self.now }
        ensures some { 0 < length self.now }
    {
        &self.bytes
    }
}
