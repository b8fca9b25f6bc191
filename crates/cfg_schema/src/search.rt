//! The rows of a level are sought among those that may stand there, which a list has for each row.

ghost use Rattle.std.specs.Prelude.{◌≡◌, ◌<◌, length, map, position};
ghost use Rattle.std.specs.List.{AllByRecursion};
ghost use Rattle.cfg_schema.specs.declared.rows.TheConstants.{ROWS};
ghost use Rattle.cfg_schema.specs.Profile.{profile, line_at, has_rows};
ghost use Rattle.cfg_schema.specs.Query.{is_asked, row_lists, rows_of, first_of};

use crate::level::Level;
use crate::query::Query;
use crate::table::Line;

/// The rows that may stand right below each row, in their order: its own, and the apply statements, which may stand below
/// every row.
static ROWS_OF: [&[u8]; 119] = [
    &[1, 2, 4, 5, 6, 30, 43, 51, 73, 99, 115],
    &[4, 5],
    &[3, 4, 5],
    &[4, 5],
    &[4, 5],
    &[4, 5],
    &[4, 5, 7, 8, 9, 11, 18, 27],
    &[4, 5],
    &[4, 5],
    &[4, 5, 10],
    &[4, 5],
    &[4, 5, 12, 14],
    &[4, 5, 13],
    &[4, 5],
    &[4, 5, 15, 16, 17],
    &[4, 5],
    &[4, 5],
    &[4, 5],
    &[4, 5, 19, 22, 24],
    &[4, 5, 20, 21],
    &[4, 5],
    &[4, 5],
    &[4, 5, 23],
    &[4, 5],
    &[4, 5, 25],
    &[4, 5, 26],
    &[4, 5],
    &[4, 5, 28],
    &[4, 5, 29],
    &[4, 5],
    &[4, 5, 31],
    &[4, 5, 32, 33, 34, 35, 36],
    &[4, 5],
    &[4, 5],
    &[4, 5],
    &[4, 5],
    &[4, 5, 37, 38, 39, 40, 93],
    &[4, 5],
    &[4, 5],
    &[4, 5],
    &[4, 5, 41, 42, 96],
    &[4, 5],
    &[4, 5],
    &[4, 5, 44, 49, 50],
    &[4, 5, 45],
    &[4, 5, 46, 47, 48],
    &[4, 5],
    &[4, 5],
    &[4, 5],
    &[4, 5],
    &[4, 5],
    &[4, 5, 52, 64],
    &[4, 5, 53],
    &[4, 5, 54, 55, 56, 57, 58, 59],
    &[4, 5],
    &[4, 5],
    &[4, 5],
    &[4, 5],
    &[4, 5],
    &[4, 5, 60, 61, 62, 63],
    &[4, 5],
    &[4, 5],
    &[4, 5],
    &[4, 5],
    &[4, 5, 65, 66],
    &[4, 5],
    &[4, 5, 67],
    &[4, 5, 68, 69, 70, 71, 72],
    &[4, 5],
    &[4, 5],
    &[4, 5],
    &[4, 5],
    &[4, 5],
    &[4, 5, 74, 76],
    &[4, 5, 75],
    &[4, 5],
    &[4, 5, 77, 91, 92],
    &[4, 5, 78, 85],
    &[4, 5, 79, 80, 81, 82],
    &[4, 5],
    &[4, 5],
    &[4, 5],
    &[4, 5, 83, 84],
    &[4, 5],
    &[4, 5],
    &[4, 5, 86, 87, 88, 89, 90],
    &[4, 5],
    &[4, 5],
    &[4, 5],
    &[4, 5],
    &[4, 5],
    &[4, 5],
    &[4, 5],
    &[4, 5, 94, 95],
    &[4, 5],
    &[4, 5],
    &[4, 5, 97, 98],
    &[4, 5],
    &[4, 5],
    &[4, 5, 100],
    &[4, 5, 101],
    &[4, 5, 102],
    &[4, 5, 103, 110],
    &[4, 5, 104, 106, 108, 109],
    &[4, 5, 105],
    &[4, 5],
    &[4, 5, 107],
    &[4, 5],
    &[4, 5],
    &[4, 5],
    &[4, 5, 111, 112, 113, 114],
    &[4, 5],
    &[4, 5],
    &[4, 5],
    &[4, 5],
    &[4, 5, 116],
    &[4, 5, 117, 118],
    &[4, 5],
    &[4, 5],
];

/// The list of each row.
fn row_lists() -> &'static [&'static [u8]]
    ensures lists { map (λ rows. rows.now) result.now ≡ row_lists }
    ensures number { length result.now ≡ ROWS }
{
    &ROWS_OF
}

/// The rows that may stand right below a row.
pub fn rows_of(row: u8) -> &'static [u8]
    requires { row < ROWS }
    ensures rows { result.now ≡ rows_of row }
    ensures within { AllByRecursion (λ r. r < ROWS) result.now }
{
    row_lists()[row as usize]
}

/// Whether rows are listed below a row.
pub fn has_rows(row: u8) -> bool
    requires { row < ROWS }
    ensures { result ≡ has_rows profile row }
{
    // The apply statements are in each list.
    rows_of(row).len() > 2
}

/// The first of these rows that is asked for.
fn first_of(lines: &[Line], level: &Level, query: &Query<'_>, rows: &[u8]) -> Option<usize>
    requires number { length lines.now ≡ ROWS }
    requires within { AllByRecursion (λ r. r < ROWS) rows.now }
    ensures { result ≡ first_of (λ row. is_asked level.now query.now (line_at lines.now row)) rows.now }
{
    for &row in rows {
        let place = row as usize;
        if query.is_asked(level, &lines[place]) {
            return Some(place);
        }
    }
    None
}

/// The place of the first row of a level that is asked for.
pub fn first_row(lines: &[Line], level: &Level, query: &Query<'_>) -> Option<usize>
    requires rows { lines.now ≡ profile }
    requires number { length lines.now ≡ ROWS }
    requires within { level.now.inner < ROWS }
    ensures { result ≡ position (is_asked level.now query.now) lines.now }
{
    first_of(lines, level, query, rows_of(level.inner))
}
