//! The bytes between the brackets of a class, as ranges.

ghost use Rattle.std.specs.Prelude.{◌≡◌, ◌<◌, length};
ghost use Rattle.glob_name.specs.Glob.{in_class, in_range};
ghost use Rattle.glob_name.specs.Front.{IsFirstRange, fits_inner};

use crate::front::behind;

/// A range from its first byte to its last, and how many bytes of the class spell it.
#[derive(Clone, Copy)]
struct Range {
    low: u8,
    high: u8,
    size: usize,
}

fn in_range(byte: u8, range: Range) -> bool
    ensures { result ≡ in_range byte (range.low, range.high) }
{
    range.low <= byte && byte <= range.high
}

fn first_range(inner: &[u8]) -> Range
    requires { 0 < length inner.now }
    ensures { IsFirstRange inner.now result.low result.high result.size }
{
    let low = inner[0];
    if inner.len() >= 3 && inner[1] == b'-' {
        return Range {
            low,
            high: inner[2],
            size: 3,
        };
    }
    Range {
        low,
        high: low,
        size: 1,
    }
}

fn in_class(inner: &[u8], byte: u8) -> bool
    ensures { result ≡ in_class inner.now byte }
{
    let mut rest = inner;
    while !rest.is_empty() {
        let range = first_range(rest);
        if in_range(byte, range) {
            return true;
        }
        rest = behind(rest, range.size);
    }
    false
}

/// Whether a class with these inner bytes fits the byte.
pub fn fits_inner(complement: bool, inner: &[u8], byte: u8) -> bool
    ensures { result ≡ fits_inner complement inner.now byte }
{
    let named = in_class(inner, byte);
    if complement { !named } else { named }
}
