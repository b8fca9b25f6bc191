//! A name against a whole pattern.

ghost use Rattle.std.specs.Prelude.{◌≡◌, ◌↔◌, ◌==◌, IsTrue};
ghost use Rattle.std.specs.List.{list_all};
ghost use Rattle.glob_name.specs.Glob.{items, Matches, glob};

use crate::front::{begins_with_star, behind, fits_front, tail_of};

fn only_stars(pattern: &[u8]) -> bool
    ensures { result ≡ list_all (λ b. b == 42) pattern.now }
{
    pattern.iter().all(|&byte| byte == b'*')
}

/// Whether a pattern, without the angle brackets of its wildcard, matches a whole name.
pub fn matches(pattern: &[u8], name: &[u8]) -> bool
    ensures matched { IsTrue result ↔ Matches (items pattern.now) name.now }
    ensures test { result ≡ glob pattern.now name.now }
{
    let tail = tail_of(pattern);
    let mut rest = pattern;
    let mut left = name;
    let mut star = false;
    let mut after = pattern;
    let mut tried = name;
    // Where an item doesn't fit, only the last star has to take one byte more: what an earlier one could give,
    // the last one can.
    while !left.is_empty() {
        if begins_with_star(rest) {
            rest = behind(rest, 1);
            star = true;
            after = rest;
            tried = left;
            continue;
        }
        if let Some(size) = fits_front(tail, rest, left[0]) {
            rest = behind(rest, size);
            left = behind(left, 1);
            continue;
        }
        if !star {
            return false;
        }
        tried = behind(tried, 1);
        rest = after;
        left = tried;
    }
    only_stars(rest)
}
