//! IPv6 addresses and prefixes.
ghost use Rattle.std.specs.Prelude.{◌≡◌, ◌≤◌, ◌∷◌, ◌++◌, ℕ, List, IfSome, IfNone, IfOk, string_bytes};
ghost use Rattle.std.specs.Fmt.{decimal};
ghost use Rattle.std.specs.List.{list_all};
ghost use Rattle.std.specs.Net.Addr.{ipv6_segments};
ghost use Rattle.std.specs.Net.Text.{hex_groups_text};
ghost use Rattle.cfg_values.specs.Address6.{IsAddress6, IsNetwork6, IsPrefix6, Network6, is_group_byte, network6, prefix6_text};
ghost use Rattle.cfg_values.specs.Spelling.{IsAnswer};

use crate::address::with_bits;
use crate::cut::cut;
use crate::fault::ValueFault;
use crate::number::small_number;
use crate::plain::word_of;
use cfg_base::{Kind, Word};
use std::alloc::{AllocError, Global};
use std::net::Ipv6Addr;

/// An address, and how many of its bits count.
#[derive(Clone, Copy)]
struct Prefix6 {
    address: Ipv6Addr,
    bits: u8,
}

/// The most bits of an address that count.
const MAX_BITS: u8 = 128;

fn is_group_byte(byte: u8) -> bool
    ensures { result ≡ is_group_byte byte }
{
    matches!(byte, b'0'..=b':' | b'A'..=b'F' | b'a'..=b'f')
}

fn all_group_bytes(bytes: &[u8]) -> bool
    ensures { result ≡ list_all is_group_byte bytes.now }
{
    bytes.iter().all(|&byte| is_group_byte(byte))
}

/// The address that groups write.
fn address_of(bytes: &[u8]) -> Option<Ipv6Addr>
    ensures some { IfSome result (λ address. IsAddress6 bytes.now (ipv6_segments address)) }
    ensures none { IfNone result ((groups : List ℕ) → ¬ (IsAddress6 bytes.now groups)) }
{
    if !all_group_bytes(bytes) {
        return None;
    }
    match Ipv6Addr::parse_ascii(bytes) {
        Ok(address) => Some(address),
        Err(_) => None,
    }
}

/// The prefix of an address and a length.
fn network_of(front: &[u8], bits: &[u8]) -> Option<Prefix6>
    ensures some { IfSome result
        (λ p. IsNetwork6 (front.now ++ 47 ∷ bits.now) (network6 (ipv6_segments p.address) p.bits)) }
    ensures none { IfNone result
        ((groups : List ℕ) (n : ℕ) → IsAddress6 front.now groups → n ≤ 128 → ¬ (bits.now ≡ decimal n)) }
{
    let address = address_of(front)?;
    let bits = small_number(bits, MAX_BITS)?;
    Some(Prefix6 { address, bits })
}

/// The prefix that an address and a length write, or an address alone.
fn prefix_of(bytes: &[u8]) -> Option<Prefix6>
    ensures some { IfSome result (λ p. IsPrefix6 bytes.now (network6 (ipv6_segments p.address) p.bits)) }
    ensures none { IfNone result ((n : Network6) → ¬ (IsPrefix6 bytes.now n)) }
{
    match cut(bytes, b'/') {
        Some((front, bits)) => network_of(front, bits),
        None => Some(Prefix6 {
            address: address_of(bytes)?,
            bits: MAX_BITS,
        }),
    }
}

/// The groups, with `::` in place of the longest run of zeros.
fn address_text(alloc: Global, address: Ipv6Addr) -> Result<String, AllocError>
    ensures { IfOk result (λ text. string_bytes text ≡ hex_groups_text (ipv6_segments address)) }
{
    let groups = address.hex_groups();
    format!(in alloc; "{groups}")
}

/// The word of a prefix.
fn spell_prefix(alloc: Global, prefix: Prefix6) -> Result<Word, AllocError>
    requires address { IsAddress6 (hex_groups_text (ipv6_segments prefix.address)) (ipv6_segments prefix.address) }
    requires bits { prefix.bits ≤ 128 }
    ensures { IfOk result (λ word. word ≡ prefix6_text (network6 (ipv6_segments prefix.address) prefix.bits)) }
{
    let address = address_text(alloc, prefix.address)?;
    let text = with_bits(alloc, address.as_str(), prefix.bits)?;
    word_of(alloc, text.as_bytes())
}

/// Reads a prefix.
pub fn read_prefix6(alloc: Global, bytes: &[u8]) -> Result<Word, ValueFault>
    ensures { IsAnswer Kind.Prefix6 bytes.now result }
{
    match prefix_of(bytes) {
        Some(prefix) => Ok(spell_prefix(alloc, prefix)?),
        None => Err(ValueFault::NotOfKind(Kind::Prefix6)),
    }
}
