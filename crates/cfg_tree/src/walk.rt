//! A walk over the statements in the order of paths.

ghost use Rattle.std.specs.Prelude.{◌≡◌, [], ◌∷◌, MatchOption};

use cfg_base::{Path, Value};
use cfg_entries::Rest;
use std::marker::Model;

/// The statements that are left of a walk.
#[derive(Debug, Drop)]
pub struct Walk<'a> {
    rest: Rest<'a, Value>,
}

impl<'a> Model for Walk<'a> {
    ghost use Rattle.std.specs.Prelude.{List};
    ghost use Rattle.cfg_base.specs.declared.path.Step.{Step};
    ghost use Rattle.cfg_base.specs.declared.value.Value as value;

    ghost Value = { List (List Step × value.Value) };

    ghost view = { λ w. w.rest };
}

impl<'a> Walk<'a> {
    pub(crate) fn of(rest: Rest<'a, Value>) -> Walk<'a>
        ensures { result ≡ rest.entry }
    {
        Walk { rest }
    }

    /// The next statement.
    pub fn next(&mut self) -> Option<(&'a Path, &'a Value)>
        ensures { MatchOption result (self.old ≡ []) (λ found. self.old ≡ (found.0.now, found.1.now) ∷ self.new) }
    {
        let entry = self.rest.next()?;
        Some((entry.path(), entry.value()))
    }
}
