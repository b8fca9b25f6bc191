//! Parts of a JSON value.

ghost use Rattle.std.specs.Prelude.{◌≡◌, [], ◌∷◌, ◌++◌, map, slice_index_or, if◌then◌else◌, OnOk, IfOk, IsUtf8, string_bytes};
ghost use Rattle.std.specs.List.{AllByRecursion};
ghost use Rattle.serde_json.specs.Data.{put, string};
ghost use Rattle.serde_json.specs.View.{view, members_view};
ghost use Rattle.json_text.specs.Keys.{key_of, marks_key};
ghost use Rattle.json_text.specs.Written.{listed, marked_at, marks_at, marks_set, own_pairs, put_all, strings};
ghost use Rattle.json_text.specs.Writing.{IsText};

use cfg_base::{NoMemory, Shape, Step, WordList};
use cfg_schema::{RowId, fixed_name, head, row};
use serde_json::{Map, Value};
use std::alloc::Global;

/// Bytes as a string.
fn text_of(alloc: Global, bytes: &[u8]) -> Result<String, NoMemory>
    requires { IsUtf8 bytes.now }
    ensures { IfOk result (λ text. string_bytes text ≡ bytes.now) }
{
    match std::str::from_utf8(bytes) {
        Ok(text) => Ok(String::from_str(alloc, text)?),
        Err(_) => unreachable!(),
    }
}

/// Bytes as a string that is a value.
pub(crate) fn string_of(alloc: Global, bytes: &[u8]) -> Result<Value, NoMemory>
    requires { IsUtf8 bytes.now }
    ensures { IfOk result (λ value. view value ≡ string bytes.now) }
{
    Ok(Value::String(text_of(alloc, bytes)?))
}

/// Puts a value at a key.
pub(crate) fn put_at(
    members: &mut Map<String, Value>,
    alloc: Global,
    key: &[u8],
    value: Value,
) -> Result<(), NoMemory>
    requires { IsUtf8 key.now }
    ensures { OnOk result (members_view members.new.entries ≡ put key.now (view value) (members_view members.old.entries)) }
{
    let key = text_of(alloc, key)?;
    drop(members.insert(key, value)?);
    Ok(())
}

/// Puts a list at a key, where it isn't empty.
pub(crate) fn put_list(
    members: &mut Map<String, Value>,
    alloc: Global,
    key: &[u8],
    values: Vec<Value>,
) -> Result<(), NoMemory>
    requires { IsUtf8 key.now }
    ensures { OnOk result (members_view members.new.entries
        ≡ put_all (members_view members.old.entries) (listed key.now (map view values.items))) }
{
    if values.is_empty() {
        return Ok(());
    }
    put_at(members, alloc, key, Value::Array(values))
}

/// The strings of words.
pub(crate) fn strings_of(alloc: Global, words: &WordList) -> Result<Vec<Value>, NoMemory>
    requires { AllByRecursion IsUtf8 words.now }
    ensures { IfOk result (λ values. map view values.items ≡ strings words.now) }
{
    let mut values = Vec::new(alloc);
    let mut left = words.iter();
    while let Some(word) = left.next() {
        values.push(string_of(alloc, word.as_bytes())?)?;
    }
    Ok(values)
}

/// Puts a string at the end of a list, where it is to stand there.
fn push_if(values: &mut Vec<Value>, there: bool, word: &[u8]) -> Result<(), NoMemory>
    requires { IsUtf8 word.now }
    ensures { OnOk result (map view values.new.items
        ≡ map view values.old.items ++ strings (if there then word.now ∷ [] else [])) }
{
    if there {
        let word = string_of(*values.allocator(), word)?;
        values.push(word)?;
    }
    Ok(())
}

/// The strings of the marks that are set.
fn marks_of(alloc: Global, value: &cfg_base::Value) -> Result<Vec<Value>, NoMemory>
    ensures { IfOk result (λ values. map view values.items ≡ strings (marks_set value.now.inactive value.now.protected)) }
{
    let mut values = Vec::new(alloc);
    push_if(&mut values, value.inactive, b"inactive".as_slice())?;
    push_if(&mut values, value.protected, b"protect".as_slice())?;
    Ok(values)
}

/// Puts the marks of a statement at a key, where one is set.
pub(crate) fn put_marks(
    members: &mut Map<String, Value>,
    alloc: Global,
    key: &[u8],
    value: &cfg_base::Value,
) -> Result<(), NoMemory>
    requires { IsUtf8 key.now }
    ensures { OnOk result (members_view members.new.entries
        ≡ put_all (members_view members.old.entries) (marks_at key.now value.now)) }
{
    put_list(members, alloc, key, marks_of(alloc, value)?)
}

/// Puts the marks of a statement that is no level beside its key.
pub(crate) fn put_marks_beside(
    members: &mut Map<String, Value>,
    alloc: Global,
    key: &[u8],
    value: &cfg_base::Value,
) -> Result<(), NoMemory>
    requires { IsUtf8 key.now }
    ensures { OnOk result (members_view members.new.entries
        ≡ put_all (members_view members.old.entries) (marks_at (marks_key key.now) value.now)) }
{
    if !value.inactive && !value.protected {
        return Ok(());
    }
    let mut beside = Vec::new(alloc);
    beside.push(b'@')?;
    beside.extend_from_slice(key)?;
    put_marks(members, alloc, &beside, value)
}

/// Puts the name of a level's statement, where it has one, and its marks.
pub(crate) fn put_own(
    members: &mut Map<String, Value>,
    alloc: Global,
    named: bool,
    step: &Step,
    value: &cfg_base::Value,
) -> Result<(), NoMemory>
    requires { IsText step.now value.now }
    ensures { OnOk result (members_view members.new.entries
        ≡ put_all (members_view members.old.entries) (own_pairs named step.now value.now)) }
{
    if named {
        let name = string_of(alloc, step.name.as_bytes())?;
        put_at(members, alloc, b"name".as_slice(), name)?;
    }
    put_marks(members, alloc, b"@".as_slice(), value)
}

/// The first of some words, or none.
pub(crate) fn first_of(words: &WordList) -> &[u8]
    ensures { result.now ≡ slice_index_or words.now 0 [] }
{
    match words.iter().next() {
        Some(word) => word.as_bytes(),
        None => &[],
    }
}

/// The key of a row's statements.
pub(crate) fn key_of(alloc: Global, id: RowId) -> Result<Vec<u8>, NoMemory>
    ensures key { IfOk result (λ key. key.items ≡ key_of id) }
    ensures text { IfOk result (λ key. IsUtf8 key.items) }
{
    let mut key = Vec::new(alloc);
    match row(id).shape {
        Shape::Bare => key.push(b'-')?,
        Shape::Fixed => {
            key.extend_from_slice(head(id))?;
            key.push(b' ')?;
            key.extend_from_slice(fixed_name(id))?;
        }
        Shape::Container | Shape::Keyed | Shape::Leaf | Shape::Flag | Shape::Many => {
            key.extend_from_slice(head(id))?;
        }
    }
    Ok(key)
}

/// The key of a row's statements as a string.
pub(crate) fn key_text(alloc: Global, id: RowId) -> Result<String, NoMemory>
    ensures { IfOk result (λ text. string_bytes text ≡ key_of id) }
{
    text_of(alloc, &key_of(alloc, id)?)
}

/// Puts the objects of a row's statements at the row's key, where there are any.
pub(crate) fn put_objects(
    members: &mut Map<String, Value>,
    alloc: Global,
    id: RowId,
    objects: Vec<Value>,
) -> Result<(), NoMemory>
    ensures { OnOk result (members_view members.new.entries
        ≡ put_all (members_view members.old.entries) (listed (key_of id) (map view objects.items))) }
{
    if objects.is_empty() {
        return Ok(());
    }
    put_list(members, alloc, &key_of(alloc, id)?, objects)
}

/// Puts a statement that is no level at a key, and its marks beside it.
pub(crate) fn put_marked(
    members: &mut Map<String, Value>,
    alloc: Global,
    key: &[u8],
    words: Value,
    value: &cfg_base::Value,
) -> Result<(), NoMemory>
    requires { IsUtf8 key.now }
    ensures { OnOk result (members_view members.new.entries
        ≡ put_all (members_view members.old.entries) (marked_at key.now (view words) value.now)) }
{
    put_at(members, alloc, key, words)?;
    put_marks_beside(members, alloc, key, value)
}
