//! Bytes that are compared from the first one on.

ghost use Rattle.std.specs.Prelude.{◌≡◌, ◌≤◌, ◌-◌, length, take, drop};
ghost use Rattle.std.specs.Int.{from_le_bytes, w64};
ghost use Rattle.cfg_base.specs.Order.{word_cmp};
ghost use Rattle.cfg_base.specs.Words.{same_word};

use std::cmp::Ordering;

/// The first eight bytes as a number.
fn front_of(bytes: &[u8]) -> u64
    requires { 8 ≤ length bytes.now }
    ensures { result ≡ from_le_bytes w64 (take 8 bytes.now) }
{
    u64::from_le_bytes([
        bytes[0], bytes[1], bytes[2], bytes[3], bytes[4], bytes[5], bytes[6], bytes[7],
    ])
}

/// The last eight bytes as a number.
fn back_of(bytes: &[u8]) -> u64
    requires { 8 ≤ length bytes.now }
    ensures { result ≡ from_le_bytes w64 (take 8 (drop (length bytes.now - 8) bytes.now)) }
{
    front_of(&bytes[bytes.len() - 8..])
}

/// So many bytes at the beginning of both are the same, told at once: the first eight, or none.
fn same_front(one: &[u8], other: &[u8]) -> usize
    ensures same { take result one.now ≡ take result other.now }
    ensures in_one { result ≤ length one.now }
    ensures in_other { result ≤ length other.now }
{
    if one.len() < 8 || other.len() < 8 {
        return 0;
    }
    if front_of(one) == front_of(other) {
        8
    } else {
        0
    }
}

/// How the bytes stand in the order of words: the first ones that differ decide, and else the lengths.
pub(crate) fn order_of(one: &[u8], other: &[u8]) -> Ordering
    ensures { result ≡ word_cmp one.now other.now }
{
    let both = one.len().min(other.len());
    let begun = same_front(one, other);
    for place in begun..both {
        if one[place] != other[place] {
            return one[place].cmp(&other[place]);
        }
    }
    one.len().cmp(&other.len())
}

/// Whether eight to sixteen bytes are the same, told by the first eight and the last eight.
pub(crate) fn same_ends(one: &[u8], other: &[u8]) -> bool
    requires alike { length one.now ≡ length other.now }
    requires least { 8 ≤ length one.now }
    requires most { length one.now ≤ 16 }
    ensures { result ≡ same_word one.now other.now }
{
    front_of(one) == front_of(other) && back_of(one) == back_of(other)
}

/// Whether the bytes are the same.
pub fn same_bytes(one: &[u8], other: &[u8]) -> bool
    ensures { result ≡ same_word one.now other.now }
{
    one.len() == other.len() && order_of(one, other).is_eq()
}
