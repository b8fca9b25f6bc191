//! Marks in a JSON value.

ghost use Rattle.std.specs.Prelude.{◌≡◌, ◌⊎◌, ◌&&◌, ◌||◌, codes, Decides, Some, option_map};
ghost use Rattle.serde_json.specs.Data.{array, string};
ghost use Rattle.serde_json.specs.View.{view, items_view};
ghost use Rattle.json_text.specs.Faults.{AreMarksAt};

use serde_json::Value;

/// Whether a value is this word as a string.
fn is_word(value: &Value, word: &[u8]) -> bool
    ensures { Decides result (view value.now ≡ string word.now) }
{
    match value {
        Value::String(text) => text.as_bytes() == word,
        Value::Null | Value::Bool(_) | Value::Number(_) | Value::Array(_) | Value::Object(_) => {
            false
        }
    }
}

/// Whether a value is `inactive`.
fn is_inactive(value: &Value) -> bool
    ensures { Decides result (view value.now ≡ string (codes "inactive")) }
{
    is_word(value, b"inactive")
}

/// Whether a value is `protect`.
fn is_protect(value: &Value) -> bool
    ensures { Decides result (view value.now ≡ string (codes "protect")) }
{
    is_word(value, b"protect")
}

/// Whether a value is a mark.
fn is_mark(value: &Value) -> bool
    ensures { Decides result ((view value.now ≡ string (codes "inactive")) ⊎ (view value.now ≡ string (codes "protect"))) }
{
    is_inactive(value) || is_protect(value)
}

/// Whether one of two is this and the other that.
fn is_either_way(this: bool, that: bool, other_this: bool, other_that: bool) -> bool
    ensures { result ≡ (this && other_that || that && other_this) }
{
    this && other_that || that && other_this
}

/// Whether a list is one of marks: one or both, in any order.
fn are_marks(items: &[Value]) -> bool
    ensures { Decides result (AreMarksAt (Some (array (items_view items.now)))) }
{
    match items {
        [one] => is_mark(one),
        [one, other] => is_either_way(
            is_inactive(one),
            is_protect(one),
            is_inactive(other),
            is_protect(other),
        ),
        _ => false,
    }
}

/// Whether a value is a list of marks.
fn is_marks(value: &Value) -> bool
    ensures { Decides result (AreMarksAt (Some (view value.now))) }
{
    match value {
        Value::Array(items) => are_marks(items),
        Value::Null | Value::Bool(_) | Value::Number(_) | Value::String(_) | Value::Object(_) => {
            false
        }
    }
}

/// Whether what stands at a key of marks, if anything, is a list of marks.
pub(crate) fn are_marks_at(found: Option<&Value>) -> bool
    ensures { Decides result (AreMarksAt (option_map (λ value. view value.now) found.entry)) }
{
    match found {
        Some(value) => is_marks(value),
        None => true,
    }
}
