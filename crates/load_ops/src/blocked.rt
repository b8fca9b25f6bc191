//! Which protected statement keeps what a load would make.

ghost use Rattle.std.specs.Prelude.{MatchOption, IfOk, IfErr};
ghost use Rattle.edit_ops.specs.Block.{IsFree, IsBlockedBy};
ghost use Rattle.load_ops.specs.Texts.{spares_none};
ghost use Rattle.load_ops.specs.Parts.{IsAllowed, IsRefusal};

use crate::fault::LoadFault;
use crate::same::differs_below;
use cfg_base::Path;
use cfg_tree::{Draft, Tree};

/// The first protected statement that keeps what would be made.
fn blocked<'a>(old: &'a Tree, made: &Draft) -> Option<&'a Path>
    ensures { MatchOption result (IsFree old.now made.now spares_none) (λ path. IsBlockedBy old.now made.now spares_none path.now) }
{
    let mut left = old.walk();
    while let Some((path, value)) = left.next() {
        if value.protected && differs_below(old, made, path) {
            return Some(path);
        }
    }
    None
}

/// What is made, where no protected statement keeps it and a tree has room for it.
pub fn allowed(old: &Tree, made: Draft) -> Result<Tree, LoadFault>
    ensures ok { IfOk result (IsAllowed old.now made) }
    ensures err { IfErr result (IsRefusal old.now made) }
{
    // A protected statement comes first, so what is too much for a tree is asked for it too.
    if let Some(path) = blocked(old, &made) {
        return Err(LoadFault::Protected(path.clone()?));
    }
    match made.into_tree() {
        Some(tree) => Ok(tree),
        None => Err(LoadFault::TooMany),
    }
}
