//! What is asked of the rows of a level.

ghost use Rattle.std.specs.Prelude.{◌≡◌};
ghost use Rattle.cfg_schema.specs.Keyword.{spelled};
ghost use Rattle.cfg_schema.specs.Place.{has_words, fits};
ghost use Rattle.cfg_schema.specs.Query.{is_asked};

use crate::level::{Level, goes_on};
use crate::table::Line;
use cfg_base::{Shape, Step, same_bytes};

/// A question to the rows of a level.
#[derive(Clone, Copy, Debug)]
pub enum Query<'a> {
    /// The row that a step follows.
    Step(&'a Step),
    /// A row that begins with a word.
    Head(&'a [u8]),
    /// A row that begins with a word, which another one can follow.
    Words(&'a [u8], &'a [u8]),
    /// The row that is a bare name.
    Name,
    /// The row whose names keep the user's order.
    Ordered,
}

fn has_words(line: &Line, step: &Step) -> bool
    ensures { result ≡ has_words line.now.shape (spelled line.now.head) (spelled line.now.name) step.now }
{
    let head = step.head.as_bytes();
    let name = step.name.as_bytes();
    match line.shape {
        Shape::Bare => head.is_empty(),
        Shape::Keyed => same_bytes(line.head.bytes(), head),
        Shape::Fixed => same_bytes(line.head.bytes(), head) && same_bytes(line.name.bytes(), name),
        Shape::Container | Shape::Leaf | Shape::Flag | Shape::Many => {
            same_bytes(line.head.bytes(), head) && name.is_empty()
        }
    }
}

fn fits(level: &Level, step: &Step, line: &Line) -> bool
    ensures { result ≡ fits level.now step.now line.now }
{
    // Most rows of a level have other words.
    has_words(line, step) && level.takes(line)
}

impl Query<'_> {
    /// Whether a row is one that is asked for.
    pub fn is_asked(&self, level: &Level, line: &Line) -> bool
        ensures { result ≡ is_asked level.now self.now line.now }
    {
        match self {
            Query::Step(step) => fits(level, step, line),
            Query::Head(word) => level.begins(word, line),
            Query::Words(word, next) => level.begins(word, line) && goes_on(next, line),
            Query::Name => level.names(line),
            Query::Ordered => level.takes(line) && line.ordered,
        }
    }
}
