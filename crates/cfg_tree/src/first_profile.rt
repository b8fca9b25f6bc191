//! Whether a configuration is one of the first profile, whose rows are the first ones of the table.

ghost use Rattle.std.specs.Prelude.{◌≡◌, ◌<◌, ◌↔◌, map, Contains, Decides, IsTrue};
ghost use Rattle.std.specs.List.{AllByRecursion, list_any};
ghost use Rattle.std.specs.Str.{bytes_eq};
ghost use Rattle.cfg_tree.specs.FirstProfile.{IsFirstProfile, IsFirstStatement, first_permissions};

use crate::tree::Tree;
use cfg_base::{Path, Value, WordList};
use cfg_schema::Place;

/// How many rows the first profile has, the top among them: they are the first rows of the table.
pub const FIRST_ROWS: u8 = 93;

/// The row `permissions` of a class.
pub const PERMISSIONS: u8 = 13;

/// The permissions that a class of the first profile may have.
fn first_permissions() -> &'static [&'static [u8]]
    ensures { map (λ word. word.now) result.now ≡ first_permissions }
{
    &[
        b"all",
        b"clear",
        b"configure",
        b"view",
        b"view-configuration",
    ]
}

fn is_among(words: &[&[u8]], bytes: &[u8]) -> bool
    ensures { result ≡ list_any (λ word. bytes_eq word.now bytes.now) words.now }
{
    words.iter().any(|&word| word == bytes)
}

fn is_first_permission(word: &[u8]) -> bool
    ensures { IsTrue result ↔ Contains first_permissions word.now }
{
    is_among(first_permissions(), word)
}

fn are_first_permissions(words: &WordList) -> bool
    ensures { Decides result (AllByRecursion (Contains first_permissions) words.now) }
{
    let mut left = words.iter();
    while let Some(word) = left.next() {
        if !is_first_permission(word.as_bytes()) {
            return false;
        }
    }
    true
}

fn is_first_at(here: Place, words: &WordList) -> bool
    ensures { Decides result ((here.row < FIRST_ROWS) × (here.row ≡ PERMISSIONS → AllByRecursion (Contains first_permissions) words.now)) }
{
    let row = here.row.number();
    row < FIRST_ROWS && (row != PERMISSIONS || are_first_permissions(words))
}

fn is_first_statement(path: &Path, value: &Value) -> bool
    ensures { Decides result (IsFirstStatement path.now value.now) }
{
    match Place::of(path.steps()) {
        None => true,
        Some(here) => is_first_at(here, &value.words),
    }
}

impl Tree {
    /// Whether each statement is one of the first profile. It takes no memory.
    pub fn in_profile_1(&self) -> bool
        ensures { Decides result (IsFirstProfile self.now) }
    {
        let mut left = self.walk();
        while let Some((path, value)) = left.next() {
            if !is_first_statement(path, value) {
                return false;
            }
        }
        true
    }
}
