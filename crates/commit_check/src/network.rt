//! Routes in whose prefixes the bits past the length aren't all 0.

ghost use Rattle.std.specs.Prelude.{◌≡◌, ◌==◌, ◌-◌, ◌^◌, ◌%◌, ◌≤◌, ◌↔◌, ℕ, List, not, IsTrue, IfSome, IfNone};
ghost use Rattle.std.specs.Net.Addr.{ipv4_octets};
ghost use Rattle.cfg_base.specs.declared.path.Step.{Step};
ghost use Rattle.cfg_values.specs.Address.{IsAddress, Network, network};
ghost use Rattle.commit_check.specs.Network.{IsKept, HasStrayBits, has_stray_bits, one_digit, two_digits, length_of};

use crate::kinds::is_route;
use crate::name::{cut, last_name};
use cfg_base::Path;
use std::net::Ipv4Addr;

/// An address, and how many of its bits count.
#[derive(Clone, Copy)]
struct Prefix {
    address: Ipv4Addr,
    bits: u8,
}

/// The most bits of an address that count.
const MAX_BITS: u8 = 32;

/// The address that four numbers write.
fn address_of(bytes: &[u8]) -> Option<Ipv4Addr>
    ensures some { IfSome result (λ address. IsAddress bytes.now (ipv4_octets address)) }
    ensures none { IfNone result ((quad : List ℕ) → ¬ (IsAddress bytes.now quad)) }
{
    match Ipv4Addr::parse_ascii(bytes) {
        Ok(address) => Some(address),
        Err(_) => None,
    }
}

/// The length that one digit writes.
fn one_digit(digit: u8) -> Option<u8>
    ensures { result ≡ one_digit digit }
{
    if matches!(digit, b'0'..=b'9') {
        Some(digit - b'0')
    } else {
        None
    }
}

/// The length that two digits write.
fn two_digits(ten: u8, one: u8) -> Option<u8>
    ensures { result ≡ two_digits ten one }
{
    if !matches!(ten, b'1'..=b'3') || !matches!(one, b'0'..=b'9') {
        return None;
    }
    let length = (ten - b'0') * 10 + (one - b'0');
    if length <= MAX_BITS {
        Some(length)
    } else {
        None
    }
}

/// The length that digits write.
fn length_of(digits: &[u8]) -> Option<u8>
    ensures { result ≡ length_of digits.now }
{
    match digits {
        [one] => one_digit(*one),
        [ten, one] => two_digits(*ten, *one),
        _ => None,
    }
}

/// The network that a name spells as it is kept.
fn network_of(name: &[u8]) -> Option<Prefix>
    ensures some { IfSome result (λ p. IsKept name.now (network (ipv4_octets p.address) p.bits)) }
    ensures none { IfNone result ((net : Network) → ¬ (IsKept name.now net)) }
{
    let (front, digits) = cut(name, b'/');
    Some(Prefix {
        address: address_of(front)?,
        bits: length_of(digits)?,
    })
}

/// Whether the bits of an address past a length aren't all 0.
fn has_bits_past(address: u32, bits: u8) -> bool
    requires { bits ≤ 32 }
    ensures { result ≡ not (address % 2 ^ (32 - bits) == 0) }
{
    u64::from(address) % (1 << (MAX_BITS - bits)) != 0
}

/// Whether a path is a static route in whose prefix the bits past the length aren't all 0.
pub fn has_stray_bits(path: &Path) -> bool
    ensures { result ≡ has_stray_bits path.now }
{
    if !is_route(path) {
        return false;
    }
    match network_of(last_name(path)) {
        Some(prefix) => has_bits_past(prefix.address.to_bits(), prefix.bits),
        None => false,
    }
}

/// The test of a route decides that its name spells a network in whose address the bits past the length aren't all 0,
/// and a name that is kept spells one network.
pub fn stray_bits_are_told()
    ensures told { (path : List Step) → IsTrue (has_stray_bits path) ↔ HasStrayBits path }
    ensures one { (name : List ℕ) (net other : Network) → IsKept name net → IsKept name other → net ≡ other }
{}
