//! IPv4 addresses, prefixes and OSPF areas.
ghost use Rattle.std.specs.Prelude.{◌≡◌, ◌≢◌, ◌≤◌, ◌∷◌, ◌++◌, ℕ, List, IfSome, IfNone, IfOk, string_bytes};
ghost use Rattle.std.specs.Fmt.{decimal};
ghost use Rattle.cfg_values.specs.Address.{IsFront, IsAddress, IsArea, dotted};
ghost use Rattle.cfg_values.specs.Address.{IsNetwork, IsPrefix, Network, network, prefix_text};
ghost use Rattle.cfg_values.specs.Spelling.{IsAnswer};

use crate::cut::cut;
use crate::fault::ValueFault;
use crate::number::{number_within, small_number};
use crate::octets::octets_of;
use crate::plain::word_of;
use cfg_base::{Kind, Word};
use std::alloc::{AllocError, Global};

/// An address, and how many of its bits count.
#[derive(Clone, Copy)]
struct Prefix {
    quad: [u8; 4],
    bits: u8,
}

/// The most bits of an address that count.
const MAX_BITS: u8 = 32;

/// The address that four numbers write.
fn address_of(bytes: &[u8]) -> Option<[u8; 4]>
    ensures some { IfSome result (λ quad. IsAddress bytes.now quad) }
    ensures none { IfNone result ((quad : List ℕ) → ¬ (IsAddress bytes.now quad)) }
{
    octets_of(bytes)?.whole()
}

/// The area that an address or a number writes.
fn area_of(bytes: &[u8]) -> Option<[u8; 4]>
    ensures some { IfSome result (λ quad. IsArea bytes.now quad) }
    ensures none { IfNone result ((quad : List ℕ) → ¬ (IsArea bytes.now quad)) }
{
    match number_within(bytes, 0, u32::MAX) {
        Some(number) => Some(number.to_be_bytes()),
        None => address_of(bytes),
    }
}

/// The prefix of one to four numbers and a length.
fn network_of(front: &[u8], bits: &[u8]) -> Option<Prefix>
    ensures some { IfSome result
        (λ p. IsNetwork (front.now ++ 47 ∷ bits.now) (network p.quad p.bits)) }
    ensures none { IfNone result
        ((numbers : List ℕ) (n : ℕ) → IsFront front.now numbers → n ≤ 32 → bits.now ≢ decimal n) }
{
    let octets = octets_of(front)?;
    let bits = small_number(bits, MAX_BITS)?;
    Some(Prefix {
        quad: octets.filled(),
        bits,
    })
}

/// The prefix that numbers and a length write, or an address alone.
fn prefix_of(bytes: &[u8]) -> Option<Prefix>
    ensures some { IfSome result (λ p. IsPrefix bytes.now (network p.quad p.bits)) }
    ensures none { IfNone result ((n : Network) → ¬ (IsPrefix bytes.now n)) }
{
    match cut(bytes, b'/') {
        Some((front, bits)) => network_of(front, bits),
        None => Some(Prefix {
            quad: address_of(bytes)?,
            bits: MAX_BITS,
        }),
    }
}

/// The four numbers, joined by dots.
fn address_text(alloc: Global, quad: [u8; 4]) -> Result<String, AllocError>
    ensures { IfOk result (λ text. string_bytes text ≡ dotted quad) }
{
    let [a, b, c, d] = quad;
    format!(in alloc; "{a}.{b}.{c}.{d}")
}

/// The word of an address.
fn spell_address(alloc: Global, quad: [u8; 4]) -> Result<Word, AllocError>
    requires { IsAddress (dotted quad) quad }
    ensures { IfOk result (λ word. word ≡ dotted quad) }
{
    let text = address_text(alloc, quad)?;
    word_of(alloc, text.as_bytes())
}

/// An address's text, a slash and the length.
pub fn with_bits(alloc: Global, address: &str, bits: u8) -> Result<String, AllocError>
    ensures { IfOk result (λ text. string_bytes text ≡ address.now ++ 47 ∷ decimal bits) }
{
    format!(in alloc; "{address}/{bits}")
}

/// The word of a prefix.
fn spell_prefix(alloc: Global, prefix: Prefix) -> Result<Word, AllocError>
    requires quad { IsAddress (dotted prefix.quad) prefix.quad }
    requires bits { prefix.bits ≤ 32 }
    ensures { IfOk result (λ word. word ≡ prefix_text (network prefix.quad prefix.bits)) }
{
    let address = address_text(alloc, prefix.quad)?;
    let text = with_bits(alloc, address.as_str(), prefix.bits)?;
    word_of(alloc, text.as_bytes())
}

/// Reads an address.
pub fn read_address(alloc: Global, bytes: &[u8]) -> Result<Word, ValueFault>
    ensures { IsAnswer Kind.Address bytes.now result }
{
    match address_of(bytes) {
        Some(quad) => Ok(spell_address(alloc, quad)?),
        None => Err(ValueFault::NotOfKind(Kind::Address)),
    }
}

/// Reads an area.
pub fn read_area(alloc: Global, bytes: &[u8]) -> Result<Word, ValueFault>
    ensures { IsAnswer Kind.Area bytes.now result }
{
    match area_of(bytes) {
        Some(quad) => Ok(spell_address(alloc, quad)?),
        None => Err(ValueFault::NotOfKind(Kind::Area)),
    }
}

/// Reads a prefix.
pub fn read_prefix(alloc: Global, bytes: &[u8]) -> Result<Word, ValueFault>
    ensures { IsAnswer Kind.Prefix bytes.now result }
{
    match prefix_of(bytes) {
        Some(prefix) => Ok(spell_prefix(alloc, prefix)?),
        None => Err(ValueFault::NotOfKind(Kind::Prefix)),
    }
}
