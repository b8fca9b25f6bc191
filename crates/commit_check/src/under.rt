//! The statements below a row at the top stand beside one another, so a walk may begin at the first and end after the last.

ghost use Rattle.std.specs.Prelude.{◌≡◌, ◌<◌, ◌∷◌, [], IfOk};
ghost use Rattle.cfg_schema.specs.declared.rows.TheConstants.{ROWS};
ghost use Rattle.commit_check.specs.Kinds.{plain};
ghost use Rattle.commit_check.specs.First.{has_left};

use crate::lookup::{below, plain};
use cfg_base::{NoMemory, Path};
use std::alloc::Global;

/// The path of a row at the top.
pub fn top_of(alloc: Global, row: u8) -> Result<Path, NoMemory>
    requires { row < ROWS }
    ensures { IfOk result (λ path. path ≡ plain row ∷ []) }
{
    below(&Path::top(alloc), plain(alloc, row)?)
}

/// Whether a walk has left the statements below the head at the top: one at the top has another head.
pub fn has_left(head: &[u8], path: &Path) -> bool
    ensures { result ≡ has_left head.now path.now }
{
    match path.steps() {
        [step] => step.head.as_bytes() != head,
        _ => false,
    }
}
