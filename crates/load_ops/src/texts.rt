//! Curly texts, merged, in place of all, or in place of what they tag.

ghost use Rattle.std.specs.Prelude.{◌≤◌, IfOk, IfErr};
ghost use Rattle.commands.specs.declared.command.LoadWay.TheVariants.{Merge, Override, Replace};
ghost use Rattle.cfg_tree.specs.Statements.{size_of};
ghost use Rattle.cfg_tree.specs.declared.limit.TheConstants.{MAX_STATEMENTS};
ghost use Rattle.curly_grammar.specs.Grammar.{Reads};
ghost use Rattle.load_ops.specs.Texts.{IsTextLoad, IsTextLoadFault};
ghost use Rattle.load_ops.specs.Parts.{IsReadFault};

use crate::blocked::allowed;
use crate::fault::LoadFault;
use crate::left::left_of;
use cfg_tree::{Draft, Tree};
use curly_grammar::{Marked, TextFault, parse_beside};
use std::alloc::Global;

/// What a text says.
fn read(alloc: Global, text: &[u8]) -> Result<Marked, LoadFault>
    ensures reads { IfOk result (λ marked. Reads text.now marked.tree marked.replaced) }
    ensures few { IfOk result (λ marked. size_of marked.tree ≤ MAX_STATEMENTS) }
    ensures err { IfErr result (IsReadFault text.now) }
{
    read_beside(alloc, &Tree::empty(alloc), text)
}

/// The same. Statements that the older tree has too are shared with it.
fn read_beside(alloc: Global, older: &Tree, text: &[u8]) -> Result<Marked, LoadFault>
    ensures reads { IfOk result (λ marked. Reads text.now marked.tree marked.replaced) }
    ensures few { IfOk result (λ marked. size_of marked.tree ≤ MAX_STATEMENTS) }
    ensures err { IfErr result (IsReadFault text.now) }
{
    match parse_beside(alloc, older, text) {
        Ok(marked) => Ok(marked),
        Err(TextFault::NoMemory) => Err(LoadFault::NoMemory),
        Err(fault) => Err(LoadFault::Text(fault)),
    }
}

/// The statements that are there with those of a text joined to them.
pub fn merged(alloc: Global, tree: &Tree, text: &[u8]) -> Result<Tree, LoadFault>
    ensures ok { IfOk result (IsTextLoad Merge tree.now text.now) }
    ensures err { IfErr result (IsTextLoadFault Merge tree.now text.now) }
{
    match read(alloc, text) {
        Ok(marked) => allowed(tree, Draft::union(alloc, tree, &marked.tree)?),
        Err(fault) => Err(fault),
    }
}

/// The statements of a text in place of all that are there. Most of them are often there already, and are shared.
pub fn overridden(alloc: Global, tree: &Tree, text: &[u8]) -> Result<Tree, LoadFault>
    ensures ok { IfOk result (IsTextLoad Override tree.now text.now) }
    ensures err { IfErr result (IsTextLoadFault Override tree.now text.now) }
{
    match read_beside(alloc, tree, text) {
        Ok(marked) => allowed(tree, Draft::of(alloc, marked.tree)),
        Err(fault) => Err(fault),
    }
}

/// The statements that are there without what a text tags, and then with those of the text joined to them.
pub fn replaced(alloc: Global, tree: &Tree, text: &[u8]) -> Result<Tree, LoadFault>
    ensures ok { IfOk result (IsTextLoad Replace tree.now text.now) }
    ensures err { IfErr result (IsTextLoadFault Replace tree.now text.now) }
{
    match read(alloc, text) {
        Ok(marked) => {
            let left = left_of(alloc, tree, marked.replaced.as_slice())?;
            allowed(tree, Draft::union(alloc, &left, &marked.tree)?)
        }
        Err(fault) => Err(fault),
    }
}
