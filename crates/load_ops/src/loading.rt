//! A load, all or nothing.

ghost use Rattle.std.specs.Prelude.{◌≡◌, IfOk, IfErr, OnErr};
ghost use Rattle.load_ops.specs.Answer.{IsLoaded, IsLoad, IsLoadFault};

use crate::fault::LoadFault;
use crate::lines::lines_loaded;
use crate::texts::{merged, overridden, replaced};
use cfg_tree::Tree;
use commands::LoadWay;
use std::alloc::Global;

/// The statements after a load.
fn loaded(alloc: Global, tree: &Tree, way: LoadWay, text: &[u8]) -> Result<Tree, LoadFault>
    ensures ok { IfOk result (IsLoaded way tree.now text.now) }
    ensures err { IfErr result (IsLoadFault way tree.now text.now) }
{
    match way {
        LoadWay::Merge => merged(alloc, tree, text),
        LoadWay::Override => overridden(alloc, tree, text),
        LoadWay::Replace => replaced(alloc, tree, text),
        LoadWay::SetLines => lines_loaded(alloc, tree, text),
    }
}

/// Loads a text, and reports whether anything changed. Junos OS CLI User Guide, on load merge, load override, load replace
/// and load set.
pub fn load(alloc: Global, tree: &mut Tree, way: LoadWay, text: &[u8]) -> Result<bool, LoadFault>
    ensures ok { IfOk result (IsLoad way tree.old text.now tree.new) }
    ensures err { IfErr result (IsLoadFault way tree.old text.now) }
    ensures unchanged { OnErr result (tree.new ≡ tree.old) }
{
    match loaded(alloc, tree, way, text) {
        Ok(next) => {
            let changed = !tree.same(&next);
            *tree = next;
            Ok(changed)
        }
        Err(fault) => Err(fault),
    }
}
