ghost use Rattle.std.specs.Prelude.{◌≡◌, ◌<◌, length};
ghost use Rattle.cfg_schema.specs.declared.rows.TheConstants.{ROWS};
ghost use Rattle.cfg_schema.specs.Profile.{profile, line_at, level_in, reaches, stands, is_bare, is_fixed, same_word, begins, goes_on, names};
ghost use Rattle.cfg_schema.specs.Keyword.{spelled};

use crate::rows::{GROUP, GROUPS};
use crate::search::has_rows;
use crate::table::{Line, Reach};
use cfg_base::{Shape, same_bytes};

/// Where rows may stand.
#[derive(Clone, Copy, Debug, PartialEq, Eq)]
pub struct Level {
    /// The row below which the level's rows are listed.
    pub inner: u8,
    /// Whether the level is `groups` or inside it.
    pub grouped: bool,
    /// Whether apply statements stand here.
    pub applies: bool,
}

/// The row below which the rows of a row's level are listed.
fn inner(lines: &[Line], parent: u8) -> u8
    requires rows { lines.now ≡ profile }
    requires parent { parent < length lines.now }
    ensures same { result ≡ (line_at lines.now parent).inner }
    ensures within { result < ROWS }
{
    lines[parent as usize].inner
}

/// The level that a row opens.
pub fn level_in(lines: &[Line], parent: u8, in_group: bool) -> Level
    requires rows { lines.now ≡ profile }
    requires parent { parent < length lines.now }
    ensures level { result ≡ level_in lines.now parent in_group }
    ensures within { result.inner < ROWS }
{
    let inner = inner(lines, parent);
    let grouped = in_group || parent == GROUPS || parent == GROUP;
    Level {
        inner,
        grouped,
        applies: !grouped && has_rows(inner),
    }
}

impl Level {
    /// Whether a row stands here.
    pub fn takes(&self, line: &Line) -> bool
        ensures { result ≡ stands self.now line.now }
    {
        let here = line.under == self.inner;
        match line.reach {
            Reach::Top => false,
            Reach::Within => here,
            Reach::Outside => here && !self.grouped,
            Reach::Everywhere => self.applies,
        }
    }

    /// Whether a row stands here and begins with this word.
    pub fn begins(&self, word: &[u8], line: &Line) -> bool
        ensures { result ≡ begins self.now word.now line.now }
    {
        self.takes(line) && !is_bare(line.shape) && same_bytes(line.head.bytes(), word)
    }

    /// Whether a row stands here and is a bare name.
    pub fn names(&self, line: &Line) -> bool
        ensures { result ≡ names self.now line.now }
    {
        self.takes(line) && is_bare(line.shape)
    }
}

fn is_bare(shape: Shape) -> bool
    ensures { result ≡ is_bare shape }
{
    matches!(shape, Shape::Bare)
}

fn is_fixed(shape: Shape) -> bool
    ensures { result ≡ is_fixed shape }
{
    matches!(shape, Shape::Fixed)
}

/// Whether this word can follow the row's first word.
pub fn goes_on(next: &[u8], line: &Line) -> bool
    ensures { result ≡ goes_on next.now line.now }
{
    !is_fixed(line.shape) || line.name.bytes() == next
}
