//! The names, words and marks that stand in a JSON value.

ghost use Rattle.std.specs.Prelude.{◌≡◌, ℕ, List, Bool, IfOk, IsUtf8, option_map, string_bytes, decimal};
ghost use Rattle.cfg_schema.specs.Profile.{row_of};
ghost use Rattle.cfg_tree.specs.Typed.{IsNameOf};
ghost use Rattle.cfg_values.specs.Spelling.{IsCanonicalOf, IsSpelling};
ghost use Rattle.serde_json.specs.Find.{get_member};
ghost use Rattle.serde_json.specs.View.{view, items_view, number_view};
ghost use Rattle.json_text.specs.Collecting.{AreWordsIn, has_mark, has_string, is_string, members_in};
ghost use Rattle.json_text.specs.Keys.{marks_key};
ghost use Rattle.json_text.specs.Said.{AreManyWords, AreWordsOf, IsLeafWord, IsMarked, IsNumberOf, IsWordOf, value_said};

use cfg_base::{Kind, NoMemory, Shape, Word, WordList};
use cfg_schema::{RowId, row};
use cfg_tree::is_open_kind;
use cfg_values::{ValueFault, is_pattern, read_value};
use serde_json::{Number, Value};
use std::alloc::{AllocError, Global};

/// The word that bytes spell.
fn spelled(alloc: Global, kind: Kind, bytes: &[u8]) -> Result<Word, NoMemory>
    requires { IsSpelling kind bytes.now }
    ensures { IfOk result (λ word. IsCanonicalOf kind bytes.now word) }
{
    match read_value(alloc, kind, bytes) {
        Ok(word) => Ok(word),
        Err(ValueFault::NotOfKind(_)) => unreachable!(),
        Err(ValueFault::NoMemory) => Err(NoMemory),
    }
}

/// The name that bytes spell.
pub(crate) fn name_in(
    alloc: Global,
    in_group: bool,
    kind: Kind,
    bytes: &[u8],
) -> Result<Word, NoMemory>
    requires { (name : List ℕ) × IsNameOf in_group kind bytes.now name }
    ensures { IfOk result (λ name. IsNameOf in_group kind bytes.now name) }
{
    if in_group && is_open_kind(kind) && is_pattern(bytes) {
        return Word::short(alloc, bytes);
    }
    spelled(alloc, kind, bytes)
}

fn digits(alloc: Global, number: u64) -> Result<String, AllocError>
    ensures { IfOk result (λ text. string_bytes text ≡ decimal number) }
{
    format!(in alloc; "{number}")
}

/// The word that a whole number spells.
fn number_in(alloc: Global, kind: Kind, number: &Number) -> Result<Word, NoMemory>
    requires { (word : List ℕ) × IsNumberOf kind (number_view number.now) word }
    ensures { IfOk result (λ word. IsNumberOf kind (number_view number.now) word) }
{
    match number.as_u64() {
        Some(number) => {
            let digits = digits(alloc, number)?;
            spelled(alloc, kind, digits.as_bytes())
        }
        None => unreachable!(),
    }
}

/// The word of a Leaf.
pub(crate) fn word_in(alloc: Global, kind: Kind, value: &Value) -> Result<Word, NoMemory>
    requires { (word : List ℕ) × IsWordOf kind (view value.now) word }
    ensures { IfOk result (λ word. IsWordOf kind (view value.now) word) }
{
    match value {
        Value::String(text) => spelled(alloc, kind, text.as_bytes()),
        Value::Number(number) => number_in(alloc, kind, number),
        Value::Null | Value::Bool(_) | Value::Array(_) | Value::Object(_) => unreachable!(),
    }
}

/// The words that the strings of a list spell.
fn words_in(alloc: Global, kind: Kind, list: &Vec<Value>) -> Result<WordList, NoMemory>
    requires { (words : List (List ℕ)) × AreWordsOf kind (items_view list.now.items) words }
    ensures { IfOk result (λ words. (said : List (List ℕ)) → AreWordsOf kind (items_view list.now.items) said → words ≡ said) }
{
    let mut words = WordList::new(alloc);
    for value in list {
        words.push(word_in(alloc, kind, value)?)?;
    }
    Ok(words)
}

/// The words of a Many.
fn many_words_in(alloc: Global, kind: Kind, value: &Value) -> Result<WordList, NoMemory>
    requires { (words : List (List ℕ)) × AreManyWords kind (view value.now) words }
    ensures { IfOk result (λ words. (said : List (List ℕ)) → AreManyWords kind (view value.now) said → words ≡ said) }
{
    match value {
        Value::Array(list) => words_in(alloc, kind, list),
        Value::Null | Value::Bool(_) | Value::Number(_) | Value::String(_) | Value::Object(_) =>
            unreachable!(),
    }
}

/// The words of a Leaf: its only one.
fn leaf_words_in(alloc: Global, kind: Kind, value: &Value) -> Result<WordList, NoMemory>
    requires { (words : List (List ℕ)) × IsLeafWord kind (view value.now) words }
    ensures { IfOk result (λ words. (said : List (List ℕ)) → IsLeafWord kind (view value.now) said → words ≡ said) }
{
    let mut words = WordList::new(alloc);
    words.push(word_in(alloc, kind, value)?)?;
    Ok(words)
}

/// The words of a statement that is no level.
pub(crate) fn words_of_row(alloc: Global, id: RowId, value: &Value) -> Result<WordList, NoMemory>
    requires { (words : List (List ℕ)) × AreWordsIn (row_of id).shape (row_of id).value_kind (view value.now) words }
    ensures { IfOk result (λ words. (said : List (List ℕ))
        → AreWordsIn (row_of id).shape (row_of id).value_kind (view value.now) said → words ≡ said) }
{
    let row = row(id);
    match row.shape {
        Shape::Leaf => leaf_words_in(alloc, row.value_kind, value),
        Shape::Flag => Ok(WordList::new(alloc)),
        Shape::Many => many_words_in(alloc, row.value_kind, value),
        Shape::Container | Shape::Fixed | Shape::Keyed | Shape::Bare => unreachable!(),
    }
}

/// Whether a value is this string.
fn is_string(value: &Value, word: &[u8]) -> bool
    ensures { result ≡ is_string word.now (view value.now) }
{
    match value {
        Value::String(text) => word == text.as_bytes(),
        _ => false,
    }
}

/// Whether a list has this string.
fn has_string(list: &Vec<Value>, word: &[u8]) -> bool
    ensures { result ≡ has_string word.now (items_view list.now.items) }
{
    for value in list {
        if is_string(value, word) {
            return true;
        }
    }
    false
}

/// Whether a mark is among those that stand at a key.
fn has_mark(marks: Option<&Value>, word: &[u8]) -> bool
    ensures { result ≡ has_mark word.now (option_map (λ v. view v.now) marks.entry) }
{
    match marks {
        Some(Value::Array(list)) => has_string(list, word),
        _ => false,
    }
}

/// The value of a statement with these words, by its marks.
pub(crate) fn value_in(alloc: Global, marks: Option<&Value>, words: WordList) -> cfg_base::Value
    ensures { (i p : Bool) → IsMarked (option_map (λ v. view v.now) marks.entry) i p → result ≡ value_said i p words }
{
    cfg_base::Value {
        inactive: has_mark(marks, b"inactive".as_slice()),
        protected: has_mark(marks, b"protect".as_slice()),
        order: WordList::new(alloc),
        words,
    }
}

/// What stands at a key of an object.
pub(crate) fn member<'a>(value: &'a Value, key: &[u8]) -> Option<&'a Value>
    requires { IsUtf8 key.now }
    ensures { option_map (λ v. view v.now) result ≡ get_member key.now (members_in (view value.now)) }
{
    match std::str::from_utf8(key) {
        Ok(key) => value.get(key),
        Err(_) => unreachable!(),
    }
}

/// What stands beside a key: the marks of the statement there.
pub(crate) fn marks_beside<'a>(
    alloc: Global,
    value: &'a Value,
    key: &[u8],
) -> Result<Option<&'a Value>, NoMemory>
    requires { IsUtf8 key.now }
    ensures { IfOk result (λ marks. option_map (λ v. view v.now) marks
        ≡ get_member (marks_key key.now) (members_in (view value.now))) }
{
    let mut beside = Vec::new(alloc);
    beside.push(b'@')?;
    beside.extend_from_slice(key)?;
    Ok(member(value, &beside))
}
