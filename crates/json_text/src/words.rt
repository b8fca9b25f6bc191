//! The words of statements in a JSON value.

ghost use Rattle.std.specs.Prelude.{◌≡◌, ◌∷◌, ◌++◌, [], false, ℕ, List, Decides, MatchResult};
ghost use Rattle.std.specs.List.{IsDistinct};
ghost use Rattle.cfg_base.specs.Words.{Knows, lists, same_word};
ghost use Rattle.serde_json.specs.Data.{Items, item};
ghost use Rattle.serde_json.specs.View.{view, items_view, number_view};
ghost use Rattle.json_text.specs.Checking.{HasFault, IsStringOf, WordFault};
ghost use Rattle.json_text.specs.Faults.{LeafFault, LeafNumberFault, ManyFault, WordsFault};
ghost use Rattle.json_text.specs.Said.{AreManyWords, AreWordsOf, IsNumberKind, IsNumberOf, IsWordOf};

use crate::fault::ReadFault;
use crate::refusal::{bad_value, form};
use crate::spelling::{check_spelling, spelled};
use cfg_base::{Kind, Path, Word, learn};
use serde_json::{Number, Value};
use std::alloc::Global;
use std::collections::BTreeSet;

/// Whether a kind is one of numbers.
fn is_number_kind(kind: Kind) -> bool
    ensures { Decides result (IsNumberKind kind) }
{
    matches!(kind, Kind::Number { .. })
}

/// A number in the place of a Leaf's word, at the Leaf's path.
fn check_number(alloc: Global, kind: Kind, path: &Path, number: &Number) -> Result<(), ReadFault>
    ensures { MatchResult result (λ _. (word : List ℕ) × IsNumberOf kind (number_view number.now) word)
        (HasFault (LeafNumberFault kind path.now (number_view number.now))) }
{
    if !is_number_kind(kind) || number.is_f64() {
        return Err(form(path));
    }
    match number.as_u64() {
        Some(number) => {
            let digits = format!(in alloc; "{number}")?;
            check_spelling(alloc, kind, path, digits.as_bytes())
        }
        None => Err(bad_value(path)),
    }
}

/// What stands in the place of a Leaf's word, at the Leaf's path.
pub(crate) fn check_leaf(
    alloc: Global,
    kind: Kind,
    path: &Path,
    value: &Value,
) -> Result<(), ReadFault>
    ensures { MatchResult result (λ _. (word : List ℕ) × IsWordOf kind (view value.now) word)
        (HasFault (LeafFault kind path.now (view value.now))) }
{
    match value {
        Value::String(text) => check_spelling(alloc, kind, path, text.as_bytes()),
        Value::Number(number) => check_number(alloc, kind, path, number),
        Value::Null | Value::Bool(_) | Value::Array(_) | Value::Object(_) => Err(form(path)),
    }
}

/// The word of a Many's list that a value is, at the Many's path.
fn word_of(alloc: Global, kind: Kind, path: &Path, value: &Value) -> Result<Word, ReadFault>
    ensures { MatchResult result (IsStringOf kind (view value.now)) (HasFault (WordFault kind path.now (view value.now))) }
{
    match value {
        Value::String(text) => match spelled(alloc, kind, text.as_bytes()) {
            Ok(Some(word)) => Ok(word),
            Ok(None) => Err(bad_value(path)),
            Err(_) => Err(ReadFault::NoMemory),
        },
        Value::Null | Value::Bool(_) | Value::Number(_) | Value::Array(_) | Value::Object(_) => {
            Err(form(path))
        }
    }
}

/// The next word of a Many's list, behind those that are known.
fn next_word(
    alloc: Global,
    kind: Kind,
    path: &Path,
    value: &Value,
    known: &mut BTreeSet<Word>,
) -> Result<(), ReadFault>
    ensures { (seen : List (List ℕ)) → Knows seen known.old → MatchResult result
        (λ _. (word : List ℕ) × IsStringOf kind (view value.now) word × (lists seen word ≡ false) × Knows (seen ++ word ∷ []) known.new)
        (HasFault (λ fault. (ds : Items) → WordsFault kind path.now seen (item (view value.now) ds) fault)) }
{
    let word = match word_of(alloc, kind, path, value) {
        Ok(word) => word,
        Err(fault) => return Err(fault),
    };
    match learn(known, &word) {
        Ok(true) => Ok(()),
        Ok(false) => Err(form(path)),
        Err(_) => Err(ReadFault::NoMemory),
    }
}

/// The words of a Many's list, at the Many's path.
fn check_words(alloc: Global, kind: Kind, path: &Path, values: &[Value]) -> Result<(), ReadFault>
    ensures { MatchResult result
        (λ _. (words : List (List ℕ)) × AreWordsOf kind (items_view values.now) words × IsDistinct same_word words)
        (HasFault (WordsFault kind path.now [] (items_view values.now))) }
{
    let mut known = BTreeSet::new(alloc);
    for value in values {
        match next_word(alloc, kind, path, value, &mut known) {
            Ok(()) => {}
            Err(fault) => return Err(fault),
        }
    }
    Ok(())
}

/// What stands in the place of a Many's words, at the Many's path.
pub(crate) fn check_many(
    alloc: Global,
    kind: Kind,
    path: &Path,
    value: &Value,
) -> Result<(), ReadFault>
    ensures { MatchResult result (λ _. (words : List (List ℕ)) × AreManyWords kind (view value.now) words)
        (HasFault (ManyFault kind path.now (view value.now))) }
{
    match value {
        Value::Array(values) => {
            if values.is_empty() {
                return Err(form(path));
            }
            check_words(alloc, kind, path, values)
        }
        Value::Null | Value::Bool(_) | Value::Number(_) | Value::String(_) | Value::Object(_) => {
            Err(form(path))
        }
    }
}
