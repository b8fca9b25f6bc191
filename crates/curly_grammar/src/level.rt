ghost use Rattle.std.specs.Prelude.{◌≡◌};
ghost use Rattle.cfg_tree.specs.Gather.{is_many};
ghost use Rattle.cfg_schema.specs.Profile.{is_level, row_of};

use cfg_base::{Path, Shape};
use cfg_schema::{Place, row};

/// A statement that holds a text, or the top: its path, and its row.
#[derive(Debug, Drop)]
pub struct Level {
    pub path: Path,
    pub place: Place,
}

/// Whether a statement is a level itself.
pub(crate) fn is_open(place: &Place) -> bool
    ensures { result ≡ is_level (row_of place.now.row).shape }
{
    match row(place.row).shape {
        Shape::Container | Shape::Fixed | Shape::Keyed | Shape::Bare => true,
        Shape::Leaf | Shape::Flag | Shape::Many => false,
    }
}

/// Whether a statement may have a list of values.
pub(crate) fn is_many(place: &Place) -> bool
    ensures { result ≡ is_many (row_of place.now.row).shape }
{
    match row(place.row).shape {
        Shape::Many => true,
        Shape::Container | Shape::Fixed | Shape::Keyed | Shape::Bare | Shape::Leaf | Shape::Flag =>
            false,
    }
}
