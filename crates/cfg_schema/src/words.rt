//! The words by which a row's steps are known.

ghost use Rattle.std.specs.Prelude.{◌≡◌};
ghost use Rattle.cfg_schema.specs.Profile.{is_step_of};

use crate::lookup::{fixed_name, head};
use crate::rows::RowId;
use cfg_base::{Step, same_bytes};
use std::marker::Model;

/// A row by its words, looked up once for all steps of a level.
#[derive(Debug, Drop)]
pub struct RowWords {
    id: RowId,
    head: &'static [u8],
    name: &'static [u8],
}

impl Model for RowWords {
    ghost use Rattle.std.specs.Prelude.{◌≡◌, ℕ};
    ghost use Rattle.cfg_schema.specs.Profile.{head_of, name_of};

    ghost Value = { ℕ };

    ghost view = { λ w. w.id };

    ghost invariant = { λ w. (w.head.now ≡ head_of w.id) × (w.name.now ≡ name_of w.id) };
}

impl RowWords {
    /// The words of a row.
    pub fn of(id: RowId) -> RowWords
        ensures { result ≡ id }
    {
        RowWords {
            id,
            head: head(id),
            name: fixed_name(id),
        }
    }

    /// Whether a step is one of the row.
    pub fn tell(&self, step: &Step) -> bool
        ensures { result ≡ is_step_of self.now step.now }
    {
        same_bytes(self.head, step.head.as_bytes())
            && (self.name.is_empty() || same_bytes(self.name, step.name.as_bytes()))
    }
}
