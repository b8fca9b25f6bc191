//! Setting and clearing marks.

ghost use Rattle.std.specs.Prelude.{not};
ghost use Rattle.edit_ops.specs.Change.{marked_at};
ghost use Rattle.edit_ops.specs.Made.{IsPartMade, IsItself};

use crate::fault::EditFault;
use crate::set::replace;
use cfg_base::Path;
use cfg_tree::Tree;

/// The statements with the inactive mark of one set or cleared.
pub fn mark_inactive(tree: &Tree, path: &Path, mark: bool) -> Result<Option<Tree>, EditFault>
    ensures { IsPartMade tree.now (marked_at tree.now path.now (λ value. record value { inactive = mark })) (λ _. ⊥) result }
{
    match tree.at(path) {
        Some(value) => {
            let mut value = value.clone()?;
            value.inactive = mark;
            replace(tree, path, value, false)
        }
        None => Err(EditFault::NotThere(path.clone()?)),
    }
}

/// The statements with the protected mark of one set or cleared.
pub fn mark_protected(tree: &Tree, path: &Path, mark: bool) -> Result<Option<Tree>, EditFault>
    ensures { IsPartMade tree.now (marked_at tree.now path.now (λ value. record value { protected = mark })) (IsItself (not mark) path.now) result }
{
    match tree.at(path) {
        Some(value) => {
            let mut value = value.clone()?;
            value.protected = mark;
            replace(tree, path, value, !mark)
        }
        None => Err(EditFault::NotThere(path.clone()?)),
    }
}
