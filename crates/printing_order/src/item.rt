//! A statement in a list in printing order.

ghost use Rattle.std.specs.Prelude.{◌≡◌};

use cfg_base::{Path, Value};
use std::marker::Model;

/// A statement, and how many of those right after it stand in it.
#[derive(Debug, Drop)]
pub struct Item<'a> {
    path: &'a Path,
    value: &'a Value,
    inside: usize,
}

impl<'a> Model for Item<'a> {
    ghost use Rattle.printing_order.specs.Listed as listed;

    ghost Value = { listed.Item };

    ghost view = { λ i. record { path = i.path.now; value = i.value.now; inside = i.inside } };
}

impl<'a> Item<'a> {
    /// A statement of which nothing is known to stand in it.
    pub(crate) fn of(path: &'a Path, value: &'a Value) -> Item<'a>
        ensures { result ≡ record { path = path.now; value = value.now; inside = 0 } }
    {
        Item {
            path,
            value,
            inside: 0,
        }
    }

    /// Its path.
    pub fn path(&self) -> &'a Path
        ensures { result.now ≡ self.now.path }
    {
        self.path
    }

    /// Its value.
    pub fn value(&self) -> &'a Value
        ensures { result.now ≡ self.now.value }
    {
        self.value
    }

    /// How many of the statements right after it stand in it.
    pub fn inside(&self) -> usize
        ensures { result ≡ self.now.inside }
    {
        self.inside
    }

    /// Notes how many stand in it.
    pub(crate) fn hold(&mut self, inside: usize)
        ensures { self.new ≡ record { path = self.old.path; value = self.old.value; inside = inside } }
    {
        self.inside = inside;
    }
}
