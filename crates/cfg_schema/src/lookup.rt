ghost use Rattle.std.specs.Prelude.{◌≡◌, ◌<◌, length, IfOk, position, ◌&&◌, map, filter};
ghost use Rattle.cfg_schema.specs.Profile.{profile, row_of, head_of, name_of, begins, goes_on, names, rows_below};
ghost use Rattle.cfg_schema.specs.Child.{child_in, child_of, Begins};
ghost use Rattle.cfg_schema.specs.declared.rows.TheConstants.{ROWS};

use crate::answer::Child;
use crate::level::{Level, level_in};
use crate::query::Query;
use crate::rows::{Row, RowId};
use crate::search::first_row;
use crate::table::{Line, lines};

fn fitting(lines: &[Line], level: &Level, word: &[u8], next: &[u8]) -> Option<usize>
    requires rows { lines.now ≡ profile }
    requires number { length lines.now ≡ ROWS }
    requires within { level.now.inner < ROWS }
    ensures { result ≡ position (λ line. begins level.now word.now line && goes_on next.now line) lines.now }
{
    first_row(lines, level, &Query::Words(word, next))
}

fn with_head(lines: &[Line], level: &Level, word: &[u8]) -> Option<usize>
    requires rows { lines.now ≡ profile }
    requires number { length lines.now ≡ ROWS }
    requires within { level.now.inner < ROWS }
    ensures { result ≡ position (begins level.now word.now) lines.now }
{
    first_row(lines, level, &Query::Head(word))
}

fn bare(lines: &[Line], level: &Level) -> Option<usize>
    requires rows { lines.now ≡ profile }
    requires number { length lines.now ≡ ROWS }
    requires within { level.now.inner < ROWS }
    ensures { result ≡ position (names level.now) lines.now }
{
    first_row(lines, level, &Query::Name)
}

fn child_in(lines: &[Line], level: &Level, word: &[u8], next: &[u8]) -> Child
    requires rows { lines.now ≡ profile }
    requires number { length lines.now ≡ ROWS }
    requires within { level.now.inner < ROWS }
    ensures { result ≡ child_in lines.now level.now word.now next.now }
{
    if let Some(place) = fitting(lines, level, word, next) {
        return Child::Row(RowId::at(place));
    }
    if let Some(place) = with_head(lines, level, word) {
        return Child::BadName(RowId::at(place));
    }
    match bare(lines, level) {
        Some(place) => Child::Row(RowId::at(place)),
        None => Child::Unknown,
    }
}

/// The row that a word begins below a row, where `next` is the word after it or empty.
pub fn child(parent: RowId, in_group: bool, word: &[u8], next: &[u8]) -> Child
    ensures row { result ≡ child_of parent in_group word.now next.now }
    ensures meant { Begins parent in_group word.now next.now result }
{
    let lines = lines();
    let level = level_in(lines, parent.number(), in_group);
    child_in(lines, &level, word, next)
}

/// What is said of a row.
pub fn row(id: RowId) -> Row
    ensures { result ≡ row_of id }
{
    let line = &lines()[id.number() as usize];
    Row {
        id,
        shape: line.shape,
        name_kind: line.name_kind,
        value_kind: line.value_kind,
        ordered: line.ordered,
    }
}

/// The word with which a statement of this row begins; empty for a bare name and for the top.
pub fn head(id: RowId) -> &'static [u8]
    ensures { result.now ≡ head_of id }
{
    lines()[id.number() as usize].head.bytes()
}

/// The one name that a statement of this row has, where the row is Fixed.
pub fn fixed_name(id: RowId) -> &'static [u8]
    ensures { result.now ≡ name_of id }
{
    lines()[id.number() as usize].name.bytes()
}
