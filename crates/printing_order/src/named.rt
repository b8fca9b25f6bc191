//! The path of a child of an ordered row.

ghost use Rattle.std.specs.Prelude.{◌≡◌, ◌<◌, [], ◌∷◌, ◌++◌, length, IfOk};
ghost use Rattle.cfg_base.specs.declared.path.TheConstants.{MAX_STEPS};
ghost use Rattle.cfg_tree.specs.Tree.{step_of};

use cfg_base::{NoMemory, Path, Step, Word};
use std::alloc::Global;

/// The path of the child with a head and a name.
pub fn named_child(alloc: Global, path: &Path, head: &[u8], name: &Word) -> Result<Path, NoMemory>
    requires { length path.now < MAX_STEPS }
    ensures { IfOk result (λ child. child ≡ path.now ++ step_of head.now name.now ∷ []) }
{
    let head = match Word::of(alloc, head) {
        Ok(head) => head,
        Err(_) => return Err(NoMemory),
    };
    let name = name.clone()?;
    match path.push(Step { head, name }) {
        Ok(child) => Ok(child),
        Err(_) => Err(NoMemory),
    }
}
