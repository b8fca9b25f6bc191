//! The judge of configurations in a list of commits.

use crate::checking::check;
use crate::fault::CheckFault;
use cfg_base::NoMemory;
use cfg_tree::{LedgerCheck, Tree};
use std::alloc::Global;

/// Accepts what commit check accepts.
#[derive(Clone, Copy)]
pub struct Judge {
    alloc: Global,
}

impl Judge {
    /// The judge that takes its memory here.
    pub fn of(alloc: Global) -> Judge {
        Judge { alloc }
    }
}

impl LedgerCheck for Judge {
    ghost use Rattle.commit_check.specs.Accepts.{Accepts};

    ghost accepted = { λ judge m. Accepts m };

    fn accepts(&self, tree: &Tree) -> Result<bool, NoMemory> {
        match check(self.alloc, tree) {
            Ok(_) => Ok(true),
            Err(CheckFault::Rule { .. }) => Ok(false),
            Err(CheckFault::NoMemory) => Err(NoMemory),
        }
    }
}
