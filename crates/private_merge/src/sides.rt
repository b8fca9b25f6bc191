//! The walks over the three sides, side by side.

ghost use Rattle.std.specs.Prelude.{◌≡◌, None, MatchOption};
ghost use Rattle.std.specs.Option.{option_copied};
ghost use Rattle.private_merge.specs.Walking.{first_of, all_ahead, next_path, IsNextPlace};

use crate::place::Place;
use crate::side::Side;
use cfg_base::Path;
use cfg_tree::Tree;
use std::marker::Model;

/// The first of two paths, where there are some.
fn first_of<'a>(one: Option<&'a Path>, other: Option<&'a Path>) -> Option<&'a Path>
    ensures { option_copied result ≡ first_of (option_copied one.entry) (option_copied other.entry) }
{
    match (one, other) {
        (None, other) => other,
        (Some(one), None) => Some(one),
        (Some(one), Some(other)) => { if other < one { Some(other) } else { Some(one) } }
    }
}

/// What three walks still have to go through.
#[derive(Debug, Drop)]
pub struct Sides<'a> {
    base: Side<'a>,
    active: Side<'a>,
    mine: Side<'a>,
}

impl<'a> Model for Sides<'a> {
    ghost use Rattle.private_merge.specs.Walking.{SidesView};

    ghost Value = { SidesView };

    ghost view = { λ s. record { base = s.base; active = s.active; mine = s.mine } };
}

impl<'a> Sides<'a> {
    /// All statements of three configurations.
    pub fn of(base: &'a Tree, active: &'a Tree, mine: &'a Tree) -> Sides<'a>
        ensures { result ≡ all_ahead base.now active.now mine.now }
    {
        Sides {
            base: Side::of(base.walk()),
            active: Side::of(active.walk()),
            mine: Side::of(mine.walk()),
        }
    }

    fn next_path(&self) -> Option<&'a Path>
        ensures { option_copied result ≡ next_path self.now }
    {
        first_of(
            first_of(self.base.path(), self.active.path()),
            self.mine.path(),
        )
    }

    /// What stands at the path that comes next on any side.
    pub fn next(&mut self) -> Option<Place<'a>>
        ensures { MatchOption result (next_path self.old ≡ None) (λ place. IsNextPlace self.old self.new place) }
    {
        let path = self.next_path()?;
        let base = self.base.take(path);
        let active = self.active.take(path);
        let mine = self.mine.take(path);
        Some(Place::of(path, base, active, mine))
    }
}
