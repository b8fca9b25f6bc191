//! Addresses of interfaces and numbers of VLANs that stand twice.

ghost use Rattle.std.specs.Prelude.{◌≡◌, ◌<◌, ◌↔◌, ◌∷◌, [], ℕ, List, IfOk, MatchOption, slice_index_or, filter};
ghost use Rattle.std.specs.Ordering.{is_le};
ghost use Rattle.std.specs.FinMap as map;
ghost use Rattle.cfg_base.specs.Order.{path_cmp};
ghost use Rattle.cfg_schema.specs.Profile.{head_of};
ghost use Rattle.cfg_schema.specs.declared.rows.TheConstants.{ROWS};
ghost use Rattle.cfg_values.specs.Address.{Network};
ghost use Rattle.cfg_tree.specs.Statements.{last_of};
ghost use Rattle.cfg_values.specs.Address6.{Network6};
ghost use Rattle.commit_check.specs.Network.{IsKept, IsKept6};
ghost use Rattle.commit_check.specs.Least.{Nowhere, IsLeast};
ghost use Rattle.commit_check.specs.Kinds.{plain};
ghost use Rattle.commit_check.specs.First.{key_row};
ghost use Rattle.commit_check.specs.Repeats.{has_key, key_with, numbers_in, Repeats, first_repeat};

use crate::kinds::begin_as;
use crate::name::{cut, last_name};
use crate::rule::KeyRule;
use crate::under::{has_left, top_of};
use cfg_base::{NoMemory, Path, Word, WordList, learn};
use cfg_schema::{RowId, head};
use cfg_tree::Full;
use std::alloc::Global;
use std::collections::BTreeSet;

/// Whether a path is that of a statement with a key.
fn has_key(rule: KeyRule, path: &Path) -> bool
    ensures { result ≡ has_key rule path.now }
{
    match rule {
        KeyRule::Addresses => begin_as(path.steps(), &[30, 31, 36, 40, 42]),
        KeyRule::Addresses6 => begin_as(path.steps(), &[30, 31, 36, 93, 95]),
        KeyRule::VlanIds => begin_as(path.steps(), &[115, 116, 118]),
    }
}

/// The numbers or groups of an address.
fn numbers_of(alloc: Global, path: &Path) -> Result<Word, NoMemory>
    ensures { IfOk result (λ word. word ≡ numbers_in (last_of path.now).name) }
{
    Word::short(alloc, cut(last_name(path), b'/').0)
}

/// The first word, or an empty one.
fn first_word(alloc: Global, words: &WordList) -> Result<Word, NoMemory>
    ensures { IfOk result (λ word. word ≡ slice_index_or words.now 0 []) }
{
    let mut left = words.iter();
    match left.next() {
        Some(word) => Ok(word.clone()?),
        None => Ok(Word::empty(alloc)),
    }
}

/// The key of a statement.
fn key_with(alloc: Global, rule: KeyRule, path: &Path, words: &WordList) -> Result<Word, NoMemory>
    ensures { IfOk result (λ word. word ≡ key_with rule path.now words.now) }
{
    match rule {
        KeyRule::Addresses | KeyRule::Addresses6 => numbers_of(alloc, path),
        KeyRule::VlanIds => first_word(alloc, words),
    }
}

/// The row at the top below which all statements stand that have a key of a rule.
fn key_row(rule: KeyRule) -> u8
    ensures row { result ≡ key_row rule }
    ensures within { result < ROWS }
{
    match rule {
        KeyRule::Addresses | KeyRule::Addresses6 => 30,
        KeyRule::VlanIds => 115,
    }
}

/// The first statement whose key was met before it, from a path on, up to the first with another head.
fn first_from(
    alloc: Global,
    rule: KeyRule,
    full: &Full,
    start: &Path,
    head: &[u8],
) -> Result<Option<Path>, NoMemory>
    requires start { start.now ≡ plain (key_row rule) ∷ [] }
    requires head { head.now ≡ head_of (key_row rule) }
    ensures { IfOk result (λ found. found ≡ first_repeat rule [] (filter (λ e. is_le (path_cmp start.now e.0)) (map.entries full.now))) }
{
    let mut met = BTreeSet::new(alloc);
    let mut rest = full.walk_from(start);
    while let Some((path, given)) = rest.next() {
        if has_left(head, path) {
            return Ok(None);
        }
        if has_key(rule, path) {
            let new = learn(&mut met, &key_with(alloc, rule, path, &given.words)?)?;
            if !new {
                return Ok(Some(path.clone()?));
            }
        }
    }
    Ok(None)
}

/// The first statement whose key was met before it.
fn first_repeat(alloc: Global, rule: KeyRule, full: &Full) -> Result<Option<Path>, NoMemory>
    ensures { IfOk result (λ found. found ≡ first_repeat rule [] (map.entries full.now)) }
{
    let row = key_row(rule);
    let start = top_of(alloc, row)?;
    first_from(alloc, rule, full, &start, head(RowId::at(usize::from(row))))
}

/// The least statement that has the key of an earlier one.
pub fn least_repeat(alloc: Global, rule: KeyRule, full: &Full) -> Result<Option<Path>, NoMemory>
    ensures { IfOk result (λ least. MatchOption least (Nowhere (Repeats rule full.now)) (IsLeast (Repeats rule full.now))) }
{
    first_repeat(alloc, rule, full)
}

/// Two IPv6 prefixes that are kept have the same text before their slash exactly where they have the same eight groups.
pub fn groups_are_told_by_their_text()
    ensures { (name other : List ℕ) (one two : Network6) → IsKept6 name one → IsKept6 other two
        → (numbers_in name ≡ numbers_in other) ↔ (one.groups ≡ two.groups) }
{}

/// Two prefixes that are kept have the same text before their slash exactly where they have the same four numbers.
pub fn numbers_are_told_by_their_text()
    ensures { (name other : List ℕ) (one two : Network) → IsKept name one → IsKept other two
        → (numbers_in name ≡ numbers_in other) ↔ (one.quad ≡ two.quad) }
{}
