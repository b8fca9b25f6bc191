//! The fields of a payload, each with what stands after it.

ghost use Rattle.std.specs.Prelude.{◌≡◌, ◌≢◌, ◌<◌, ◌^◌, ◌++◌, ◌∷◌, ◌↔◌, List, ℕ, length, IfSome, IsNone};
ghost use Rattle.std.specs.Int.{w32, w64, to_be_bytes};
ghost use Rattle.commit_ledger.specs.Payload.{short, via_byte};

use crate::entry::Via;

/// Eight bytes as a number, and what stands after them.
pub(crate) fn take_u64(bytes: &[u8]) -> Option<(u64, &[u8])>
    ensures some { IfSome result (λ read. bytes.now ≡ to_be_bytes w64 read.0 ++ read.1.now) }
    ensures none { IsNone result ↔ length bytes.now < 8 }
{
    if bytes.len() < 8 {
        return None;
    }
    let (front, rest) = bytes.split_at(8);
    let mut array = [0u8; 8];
    array.copy_from_slice(front);
    Some((u64::from_be_bytes(array), rest))
}

/// Four bytes as a number, and what stands after them.
pub(crate) fn take_u32(bytes: &[u8]) -> Option<(u32, &[u8])>
    ensures some { IfSome result (λ read. bytes.now ≡ to_be_bytes w32 read.0 ++ read.1.now) }
    ensures none { IsNone result ↔ length bytes.now < 4 }
{
    if bytes.len() < 4 {
        return None;
    }
    let (front, rest) = bytes.split_at(4);
    let mut array = [0u8; 4];
    array.copy_from_slice(front);
    Some((u32::from_be_bytes(array), rest))
}

/// How a commit came, and what stands after it.
pub(crate) fn take_via(bytes: &[u8]) -> Option<(Via, &[u8])>
    ensures some { IfSome result (λ read. bytes.now ≡ via_byte read.0 ∷ read.1.now) }
    ensures none { IsNone result → (via : Via) → (rest : List ℕ) → bytes.now ≢ via_byte via ∷ rest }
{
    match bytes {
        [0, rest @ ..] => Some((Via::Cli, rest)),
        [1, rest @ ..] => Some((Via::Other, rest)),
        _ => None,
    }
}

/// A text after its length in one byte.
pub(crate) fn take_short(bytes: &[u8]) -> Option<(&[u8], &[u8])>
    ensures some { IfSome result (λ read. bytes.now ≡ short read.0.now ++ read.1.now) }
    ensures bound { IfSome result (λ read. length read.0.now < 2 ^ 8) }
    ensures none { IsNone result → (text rest : List ℕ) → bytes.now ≢ short text ++ rest }
{
    let (size, rest) = bytes.split_first()?;
    let size = *size as usize;
    if rest.len() < size {
        return None;
    }
    Some(rest.split_at(size))
}

/// A text after its length in four bytes, and nothing after it.
pub(crate) fn whole_text(bytes: &[u8]) -> Option<&[u8]>
    ensures some { IfSome result (λ text. bytes.now ≡ to_be_bytes w32 (length text.now) ++ text.now) }
    ensures bound { IfSome result (λ text. length text.now < 2 ^ 32) }
    ensures none { IsNone result → (text : List ℕ) → length text < 2 ^ 32
        → bytes.now ≢ to_be_bytes w32 (length text) ++ text }
{
    let (size, text) = take_u32(bytes)?;
    if text.len() == size as usize {
        Some(text)
    } else {
        None
    }
}
