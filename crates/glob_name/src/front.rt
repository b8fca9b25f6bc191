//! The first item of a pattern against one byte.

ghost use Rattle.std.specs.Prelude.{◌≡◌, ◌<◌, ◌≤◌, ◌-◌, ◌==◌, length, drop, slice_index};
ghost use Rattle.std.specs.List.{position};
ghost use Rattle.glob_name.specs.Front.{begins_with_star, fits_front, fits_class, IsTail};

use crate::class::fits_inner;

/// What stands after the first bytes.
pub fn behind(bytes: &[u8], count: usize) -> &[u8]
    requires { count ≤ length bytes.now }
    ensures { result.now ≡ drop count bytes.now }
{
    bytes.split_at(count).1
}

pub fn begins_with_star(pattern: &[u8]) -> bool
    ensures { result ≡ begins_with_star pattern.now }
{
    match pattern {
        [b'*', ..] => true,
        _ => false,
    }
}

/// How many bytes of the pattern stand after its last `]`.
pub fn tail_of(pattern: &[u8]) -> usize
    ensures none { IsTail result pattern.now }
    ensures most { result < length pattern.now
        → slice_index pattern.now (length pattern.now - result - 1) ≡ 93 }
{
    let mut tail = 0;
    for &byte in pattern {
        if byte == b']' {
            tail = 0;
        } else {
            tail += 1;
        }
    }
    tail
}

fn end_of_class(tail: usize, rest: &[u8]) -> Option<usize>
    requires { IsTail tail rest.now }
    ensures { result ≡ position (λ b. b == 93) rest.now }
{
    // Without this, each bracket that has no end would be one more search to the end of the pattern.
    if rest.len() <= tail {
        return None;
    }
    rest.iter().position(|&byte| byte == b']')
}

/// How many bytes the item takes that `[`, or `[!` for a complement, begins, if it fits the byte: a class, or `[`
/// alone.
fn fits_class(complement: bool, tail: usize, rest: &[u8], byte: u8) -> Option<usize>
    requires { IsTail tail rest.now }
    ensures { result ≡ fits_class complement rest.now byte }
{
    match end_of_class(tail, rest) {
        None => { if byte == b'[' { Some(1) } else { None } }
        Some(end) => {
            if fits_inner(complement, rest.split_at(end).0, byte) {
                Some(if complement { end + 3 } else { end + 2 })
            } else {
                None
            }
        }
    }
}

/// How many bytes the first item of the pattern takes, if it is no star and fits the byte.
pub fn fits_front(tail: usize, pattern: &[u8], byte: u8) -> Option<usize>
    requires { IsTail tail pattern.now }
    ensures { result ≡ fits_front pattern.now byte }
{
    match pattern {
        [] => None,
        [b'*', ..] => None,
        [b'?', ..] => Some(1),
        [b'[', b'!', ..] => fits_class(true, tail, behind(pattern, 2), byte),
        [b'[', ..] => fits_class(false, tail, behind(pattern, 1), byte),
        [first, ..] => { if *first == byte { Some(1) } else { None } }
    }
}
