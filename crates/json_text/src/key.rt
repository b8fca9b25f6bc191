//! What the keys of a level's object are of.

ghost use Rattle.std.specs.Prelude.{◌≡◌, ◌∷◌, ◌++◌, find};
ghost use Rattle.cfg_base.specs.Words.{lists, same_word};
ghost use Rattle.cfg_schema.specs.Profile.{is_level, is_named};
ghost use Rattle.json_text.specs.Keys.{key_of, marks_key, own_keys};
ghost use Rattle.json_text.specs.Faults.{has_key, has_marks_key, kind_among};

use cfg_base::{Shape, same_bytes};
use cfg_schema::{RowId, fixed_name, head, row};

/// What a key of a level's object is of.
#[derive(Clone, Copy, Debug, PartialEq, Eq)]
pub(crate) enum KeyKind {
    /// The level's own statement: its name, or its marks.
    Own,
    /// The statements of a row.
    OfRow(RowId),
    /// The marks beside a row's statement, which is no level.
    OfMarks(RowId),
    /// Nothing.
    NoKey,
}

/// Whether a statement of this shape has a name of the user's own.
pub(crate) fn is_named(shape: Shape) -> bool
    ensures { result ≡ is_named shape }
{
    matches!(shape, Shape::Keyed | Shape::Bare)
}

/// Whether a statement of this shape is a level.
pub(crate) fn is_level(shape: Shape) -> bool
    ensures { result ≡ is_level shape }
{
    !matches!(shape, Shape::Leaf | Shape::Flag | Shape::Many)
}

/// Whether bytes are a blank and a name.
fn is_blank_and_name(bytes: &[u8], name: &[u8]) -> bool
    ensures { result ≡ same_word bytes.now (32 ∷ name.now) }
{
    match bytes.split_first() {
        Some((blank, rest)) => *blank == b' ' && same_bytes(rest, name),
        None => false,
    }
}

/// Whether a key is a head and a name with a blank between them.
fn is_fixed_key(key: &[u8], head: &[u8], name: &[u8]) -> bool
    ensures { result ≡ same_word key.now (head.now ++ 32 ∷ name.now) }
{
    if key.len() < head.len() {
        return false;
    }
    let (front, back) = key.split_at(head.len());
    same_bytes(front, head) && is_blank_and_name(back, name)
}

/// Whether a key is that of a row's statements.
fn has_key(key: &[u8], id: RowId) -> bool
    ensures { result ≡ has_key key.now id }
{
    match row(id).shape {
        Shape::Bare => same_bytes(key, b"-"),
        Shape::Fixed => is_fixed_key(key, head(id), fixed_name(id)),
        Shape::Container | Shape::Keyed | Shape::Leaf | Shape::Flag | Shape::Many => {
            same_bytes(key, head(id))
        }
    }
}

/// Whether a key is `@` and that of a row's statements.
fn is_marked_key(key: &[u8], id: RowId) -> bool
    ensures { result ≡ same_word key.now (marks_key (key_of id)) }
{
    match key.split_first() {
        Some((mark, rest)) => *mark == b'@' && has_key(rest, id),
        None => false,
    }
}

/// Whether a key is that of the marks beside a row's statement.
fn has_marks_key(key: &[u8], id: RowId) -> bool
    ensures { result ≡ has_marks_key key.now id }
{
    !is_level(row(id).shape) && is_marked_key(key, id)
}

/// The row with a key.
fn row_with(rows: &[RowId], key: &[u8]) -> Option<RowId>
    ensures { result ≡ find (has_key key.now) rows.now }
{
    rows.iter().copied().find(|&id| has_key(key, id))
}

/// The row beside whose statement the marks have a key.
fn row_with_marks(rows: &[RowId], key: &[u8]) -> Option<RowId>
    ensures { result ≡ find (has_marks_key key.now) rows.now }
{
    rows.iter().copied().find(|&id| has_marks_key(key, id))
}

/// Whether a key is one of a level's own statement.
fn is_own(here: RowId, key: &[u8]) -> bool
    ensures { result ≡ lists (own_keys here) key.now }
{
    (is_named(row(here).shape) && same_bytes(key, b"name"))
        || (here.number() != 0 && same_bytes(key, b"@"))
}

/// What a key is of at the level of a row, below which these rows stand.
pub(crate) fn key_kind(here: RowId, rows: &[RowId], key: &[u8]) -> KeyKind
    ensures { result ≡ kind_among rows.now (own_keys here) key.now }
{
    if is_own(here, key) {
        return KeyKind::Own;
    }
    if let Some(id) = row_with(rows, key) {
        return KeyKind::OfRow(id);
    }
    match row_with_marks(rows, key) {
        Some(id) => KeyKind::OfMarks(id),
        None => KeyKind::NoKey,
    }
}
