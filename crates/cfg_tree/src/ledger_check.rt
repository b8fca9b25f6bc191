//! Which configurations may stand in a list of commits.

ghost use Rattle.std.specs.Prelude.{IfOk, Decides};
ghost use Rattle.cfg_tree.specs.Statements.{Statements};

use crate::tree::Tree;
use cfg_base::NoMemory;

/// Whether a configuration may stand in a list of commits. Who keeps the list asks this of each one that is read.
pub trait LedgerCheck {
    /// The configurations that are accepted.
    ghost accepted: { Self → Statements → Type 0 };

    /// Whether a configuration is accepted.
    fn accepts(&self, tree: &Tree) -> Result<bool, NoMemory>
        ensures { IfOk result (λ told. Decides told (accepted self.now tree.now)) };
}
