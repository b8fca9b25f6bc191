ghost use Rattle.std.specs.Prelude.{◌≡◌, ◌<◌, ◌∷◌, [], length, ◌&&◌, position};
ghost use Rattle.cfg_schema.specs.declared.rows.TheConstants.{ROWS};
ghost use Rattle.cfg_schema.specs.Profile.{profile, stands};
ghost use Rattle.cfg_schema.specs.Place.{fits, top_place, entered, entered_by, place_after, place_from, place_of, ordered_row};

use crate::level::{Level, level_in};
use crate::query::Query;
use crate::rows::{GROUP, RowId};
use crate::search::first_row;
use crate::table::{Line, lines};
use cfg_base::Step;

/// The row that a path follows, and whether what stands below it is inside a group.
#[derive(Clone, Copy, Debug, PartialEq, Eq)]
pub struct Place {
    pub row: RowId,
    pub in_group: bool,
}

fn fitting(lines: &[Line], level: &Level, step: &Step) -> Option<usize>
    requires rows { lines.now ≡ profile }
    requires number { length lines.now ≡ ROWS }
    requires within { level.now.inner < ROWS }
    ensures { result ≡ position (fits level.now step.now) lines.now }
{
    first_row(lines, level, &Query::Step(step))
}

fn ordered(lines: &[Line], level: &Level) -> Option<usize>
    requires rows { lines.now ≡ profile }
    requires number { length lines.now ≡ ROWS }
    requires within { level.now.inner < ROWS }
    ensures { result ≡ position (λ line. stands level.now line && line.ordered) lines.now }
{
    first_row(lines, level, &Query::Ordered)
}

fn ordered_in(lines: &[Line], level: &Level) -> Option<RowId>
    requires rows { lines.now ≡ profile }
    requires number { length lines.now ≡ ROWS }
    requires within { level.now.inner < ROWS }
    ensures { result ≡ position (λ line. stands level.now line && line.ordered) lines.now }
{
    match ordered(lines, level) {
        Some(place) => Some(RowId::at(place)),
        None => None,
    }
}

impl Place {
    /// The top.
    pub fn top() -> Place
        ensures { result ≡ top_place }
    {
        Place {
            row: RowId::top(),
            in_group: false,
        }
    }

    /// The place of a row below here.
    pub fn entered(&self, row: RowId) -> Place
        ensures { result ≡ entered self.now row }
    {
        Place {
            row,
            in_group: self.in_group || row.number() == GROUP,
        }
    }

    fn after_at(&self, lines: &[Line], level: &Level, step: &Step) -> Option<Place>
        requires rows { lines.now ≡ profile }
        requires number { length lines.now ≡ ROWS }
        requires within { level.now.inner < ROWS }
        ensures { result ≡ entered_by self.now (position (fits level.now step.now) lines.now) }
    {
        match fitting(lines, level, step) {
            Some(place) => Some(self.entered(RowId::at(place))),
            None => None,
        }
    }

    /// The place that a step leads to from here, where it follows a row.
    pub fn after(&self, step: &Step) -> Option<Place>
        ensures { result ≡ place_after self.now step.now }
    {
        let lines = lines();
        let level = level_in(lines, self.row.number(), self.in_group);
        self.after_at(lines, &level, step)
    }

    /// The row below here whose names keep the user's order, where there is one.
    pub fn ordered_row(&self) -> Option<RowId>
        ensures { result ≡ ordered_row self.now }
    {
        let lines = lines();
        let level = level_in(lines, self.row.number(), self.in_group);
        ordered_in(lines, &level)
    }

    /// The place that these steps lead to from the top, where they follow rows.
    pub fn of(path: &[Step]) -> Option<Place>
        ensures { result ≡ place_of path.now }
    {
        let mut here = Place::top();
        for step in path {
            here = here.after(step)?;
        }
        Some(here)
    }
}
