//! The statements that are collected from a JSON value.

ghost use Rattle.std.specs.Prelude.{◌≡◌, ◌≤◌, [], ◌∷◌, length};
ghost use Rattle.cfg_tree.specs.declared.limit.TheConstants.{MAX_STATEMENTS};
ghost use Rattle.json_text.specs.Collecting.{Collects};
ghost use Rattle.json_text.specs.declared.collected.CollectFault.TheVariants.{NoMemory};

use cfg_base::{NoMemory, Path, Value};
use cfg_tree::MAX_STATEMENTS;
use std::alloc::{AllocError, AllocFailed, Global};
use std::marker::Model;

/// Why the statements that a value says aren't collected.
#[derive(Clone, Copy, Debug, PartialEq, Eq)]
pub(crate) enum CollectFault {
    /// They are more than a tree has.
    TooMany,
    NoMemory,
}

impl From<NoMemory> for CollectFault {
    ghost from_gives = { λ _ fault. fault ≡ NoMemory };

    fn from(_: NoMemory) -> CollectFault {
        CollectFault::NoMemory
    }
}

impl From<AllocError> for CollectFault {
    ghost from_gives = { λ _ fault. fault ≡ NoMemory };

    fn from(_: AllocError) -> CollectFault {
        CollectFault::NoMemory
    }
}

impl<T: Drop> From<AllocFailed<T>> for CollectFault {
    ghost from_gives = { λ _ fault. fault ≡ NoMemory };

    fn from(_: AllocFailed<T>) -> CollectFault {
        CollectFault::NoMemory
    }
}

/// Statements in the order in which they are said, no more than a tree has.
#[derive(Debug, Drop)]
pub(crate) struct Collected {
    items: Vec<(Path, Value)>,
}

impl Model for Collected {
    ghost use Rattle.std.specs.Prelude.{List, length, ◌≤◌};
    ghost use Rattle.cfg_base.specs.declared.path.Step.{Step};
    ghost use Rattle.cfg_base.specs.declared.value.Value as value;
    ghost use Rattle.cfg_tree.specs.declared.limit.TheConstants.{MAX_STATEMENTS};

    ghost Value = { List (List Step × value.Value) };

    ghost view = { λ c. c.items.items };

    ghost invariant = { λ c. length c.items.items ≤ MAX_STATEMENTS };
}

impl Collected {
    pub fn new(alloc: Global) -> Collected
        ensures { result ≡ [] }
    {
        Collected {
            items: Vec::new(alloc),
        }
    }

    /// Puts a statement at the end.
    pub fn push(&mut self, path: Path, value: Value) -> Result<(), CollectFault>
        ensures { Collects (λ told. told ≡ (path, value) ∷ []) self.old self.new result }
    {
        if self.items.len() >= MAX_STATEMENTS {
            return Err(CollectFault::TooMany);
        }
        self.items.push((path, value))?;
        Ok(())
    }

    pub fn into_items(self) -> Vec<(Path, Value)>
        ensures items { result.items ≡ self }
        ensures few { length self ≤ MAX_STATEMENTS }
    {
        self.items
    }
}
