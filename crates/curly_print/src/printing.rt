//! Statements as curly text.

ghost use Rattle.std.specs.Prelude.{◌≡◌, [], ◌++◌, Some, IfOk, OnOk};
ghost use Rattle.std.specs.FinMap as map;
ghost use Rattle.cfg_base.specs.declared.path.TheConstants.{MAX_STEPS};
ghost use Rattle.cfg_schema.specs.Profile.{is_level};
ghost use Rattle.cfg_schema.specs.Place.{place_of};
ghost use Rattle.cfg_tree.specs.Statements.{last_of};
ghost use Rattle.curly_print.specs.Printed.{printed, statement_text, text_below};

use crate::line::{push_bytes, push_line};
use crate::tree_printer::TreePrinter;
use cfg_base::{Bytes, MAX_STEPS, NoMemory, Path, Shape};
use cfg_schema::{Place, row};
use cfg_tree::Tree;
use printing_order::statements_below;
use std::alloc::Global;

/// How many more spaces a level has than the one above it.
pub(crate) const INDENT: usize = 4;

pub(crate) fn is_level(shape: Shape) -> bool
    ensures { result ≡ is_level shape }
{
    matches!(
        shape,
        Shape::Container | Shape::Fixed | Shape::Keyed | Shape::Bare
    )
}

/// Puts what stands in the top or in a level at the end of a text.
fn push_level(
    alloc: Global,
    text: &mut Vec<u8>,
    tree: &Tree,
    path: &Path,
    here: &Place,
) -> Result<(), NoMemory>
    requires { place_of path.now ≡ Some here.now }
    ensures { OnOk result (text.new.items ≡ text.old.items ++ text_below MAX_STEPS tree.now path.now 0) }
{
    if tree.count() == 0 {
        return Ok(());
    }
    let inside = statements_below(alloc, tree, path)?;
    TreePrinter::of(alloc, tree).push_below(text, path, here, &inside, MAX_STEPS, 0)
}

/// Puts the statement of a path at the end of a text, where it is there.
fn push_statement(text: &mut Vec<u8>, tree: &Tree, path: &Path) -> Result<(), NoMemory>
    ensures { OnOk result (text.new.items ≡ text.old.items ++ statement_text 0 (last_of path.now) (map.get tree.now path.now) []) }
{
    match (path.steps().last(), tree.at(path)) {
        (Some(step), Some(value)) => {
            push_line(text, step, value)?;
            push_bytes(text, b";\n".as_slice())
        }
        _ => Ok(()),
    }
}

fn push_below(alloc: Global, text: &mut Vec<u8>, tree: &Tree, path: &Path) -> Result<(), NoMemory>
    ensures { OnOk result (text.new.items ≡ text.old.items ++ printed tree.now path.now) }
{
    match Place::of(path.steps()) {
        None => Ok(()),
        Some(here) => {
            if is_level(row(here.row).shape) {
                push_level(alloc, text, tree, path, &here)
            } else {
                push_statement(text, tree, path)
            }
        }
    }
}

/// The statements below a path as curly text: of the top or a level what stands in it, of another statement its own
/// line, of what isn't there nothing. For want of memory it fails.
pub fn print(alloc: Global, tree: &Tree, below: &Path) -> Result<Bytes, NoMemory>
    ensures { IfOk result (λ bytes. bytes ≡ printed tree.now below.now) }
{
    let mut text = Vec::new(alloc);
    push_below(alloc, &mut text, tree, below)?;
    Ok(Bytes::from(text))
}
