ghost use Rattle.std.specs.Prelude.{◌≡◌, ◌≤◌, ◌<◌, ◌↔◌, length, IsSome, IfSome, slice_get, slice_index, take, drop};
ghost use Rattle.std.specs.Int.{w32, from_be_bytes};
ghost use Rattle.sha2.specs.Sha256.{sha256};

use sha2::{Digest, Sha256};

/// The kind, from bytes that begin with it; `None` exactly on no byte.
pub fn kind_of(bytes: &[u8]) -> Option<u8>
    ensures { result ≡ slice_get bytes.now 0 }
{
    bytes.first().copied()
}

/// The length of the payload, from bytes that begin at the kind; `None` exactly on under 5 bytes.
pub fn length_of(bytes: &[u8]) -> Option<u32>
    ensures some { IsSome result ↔ (5 ≤ length bytes.now) }
    ensures value { IfSome result (λ n. n ≡ from_be_bytes w32 (take 4 (drop 1 bytes.now))) }
{
    match bytes {
        [_, a, b, c, d, ..] => Some(u32::from_be_bytes([*a, *b, *c, *d])),
        _ => None,
    }
}

/// The digest of kind, length and payload.
pub fn digest_of(body: &[u8]) -> [u8; 32]
    ensures { result ≡ sha256 body.now }
{
    Sha256::digest(body)
}
