//! A tree made anew, so that it shares with an older one what is equal in both.

ghost use Rattle.std.specs.Prelude.{◌≡◌, IfOk};
ghost use Rattle.std.specs.FinMap as map;
ghost use Rattle.cfg_tree.specs.Shown.{shown};
ghost use Rattle.cfg_tree.specs.Tree.{IsTree};

use crate::gather::gathered_in;
use crate::store::Entries;
use crate::tree::Tree;
use cfg_base::{NoMemory, Path, Value};
use std::alloc::Global;

/// All statements of a tree, each copied.
fn statements_of(alloc: Global, tree: &Tree) -> Result<Vec<(Path, Value)>, NoMemory>
    ensures all { IfOk result (λ items. items.items ≡ map.entries tree.now) }
    ensures tree { IsTree tree.now }
{
    let mut items = Vec::with_capacity(alloc, tree.count() as usize)?;
    let mut left = tree.walk();
    while let Some((path, value)) = left.next() {
        items.push((path.clone()?, value.clone()?))?;
    }
    Ok(items)
}

/// The statements of a tree, made anew beside older ones.
#[tactic(auto, using(crate::proofs::GatheredLemmas::gathered_again))]
pub fn made_beside(alloc: Global, older: &Entries, tree: &Tree) -> Result<Entries, NoMemory>
    ensures same { IfOk result (λ made. shown made ≡ tree.now) }
    ensures tree { IsTree tree.now }
{
    let statements = statements_of(alloc, tree)?;
    gathered_in(alloc, older, statements)
}
