//! A walk over the statements of one side, with the one that comes next.

ghost use Rattle.std.specs.Prelude.{◌≡◌};
ghost use Rattle.std.specs.Option.{option_copied};
ghost use Rattle.private_merge.specs.Walking.{path_ahead, value_ahead, rest_behind};

use cfg_base::{Path, Value};
use cfg_tree::Walk;
use std::marker::Model;

/// The statements of one side that are still to come, in the order of paths.
#[derive(Debug, Drop)]
pub struct Side<'a> {
    first: Option<(&'a Path, &'a Value)>,
    rest: Walk<'a>,
}

impl<'a> Model for Side<'a> {
    ghost use Rattle.std.specs.Prelude.{List};
    ghost use Rattle.std.specs.Option.{option_map};
    ghost use Rattle.cfg_base.specs.declared.value.Value as value;
    ghost use Rattle.cfg_entries.specs.EntryMap.{Pair};
    ghost use Rattle.private_merge.specs.Walking.{in_front};

    ghost Value = { List (Pair value.Value) };

    ghost view = { λ s. in_front (option_map (λ f. (f.0.now, f.1.now)) s.first) s.rest };
}

impl<'a> Side<'a> {
    pub fn of(walk: Walk<'a>) -> Side<'a>
        ensures { result ≡ walk.entry }
    {
        let mut rest = walk;
        let first = rest.next();
        Side { first, rest }
    }

    /// The path that comes next.
    pub fn path(&self) -> Option<&'a Path>
        ensures { option_copied result ≡ path_ahead self.now }
    {
        let (path, _) = self.first?;
        Some(path)
    }

    /// The value at a path, where that comes next, and then what comes after it.
    pub fn take(&mut self, path: &Path) -> Option<&'a Value>
        ensures value { option_copied result ≡ value_ahead path.now self.old }
        ensures rest { self.new ≡ rest_behind path.now self.old }
    {
        let (next, value) = self.first?;
        if path != next {
            return None;
        }
        self.first = self.rest.next();
        Some(value)
    }
}
