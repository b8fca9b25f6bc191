//! Statements as the lines that make them.

ghost use Rattle.std.specs.Prelude.{◌≡◌, ◌-◌, ◌∷◌, [], length, OnOk, IfOk};
ghost use Rattle.cfg_base.specs.declared.path.TheConstants.{MAX_STEPS};
ghost use Rattle.cfg_schema.specs.Place.{place_of};
ghost use Rattle.cfg_schema.specs.Profile.{is_level};
ghost use Rattle.set_text.specs.Printed.{opens_at, paths_below, printed_set, shown_of};
ghost use Rattle.set_text.specs.Groups.{AreItems, ArePaths};
ghost use Rattle.set_text.specs.Trail.{GoesOn};

use crate::groups::{Groups, push_statement};
use crate::trail::Trail;
use cfg_base::{Bytes, MAX_STEPS, NoMemory, Path, Shape};
use cfg_schema::{Place, row};
use cfg_tree::Tree;
use printing_order::{Item, items_below};
use std::alloc::Global;

fn is_level(shape: Shape) -> bool
    ensures { result ≡ is_level shape }
{
    matches!(
        shape,
        Shape::Container | Shape::Fixed | Shape::Keyed | Shape::Bare
    )
}

/// Whether the path is that of a level, or the top.
fn opens(path: &Path) -> bool
    ensures { result ≡ opens_at (place_of path.now) }
{
    match Place::of(path.steps()) {
        None => false,
        Some(here) => is_level(row(here.row).shape),
    }
}

/// Puts the lines of statements at the end of each group, of which the first stands right below the trail's path.
fn print_items<'a>(groups: &mut Groups, from: Trail<'a>, items: &[Item<'a>]) -> Result<(), NoMemory>
    requires { GoesOn from items.now }
    ensures { OnOk result (AreItems items.now groups.old groups.new) }
{
    let mut trail = from;
    for item in items {
        trail = trail.gone_to(item.path())?;
        push_statement(groups, &trail, item.value(), item.inside() == 0)?;
    }
    Ok(())
}

/// Puts the lines of what stands in the top or in a level at the end of each group.
fn print_level(
    alloc: Global,
    groups: &mut Groups,
    tree: &Tree,
    below: &Path,
) -> Result<(), NoMemory>
    ensures { OnOk result (ArePaths tree.now (paths_below (MAX_STEPS - length below.now) tree.now below.now) groups.old groups.new) }
{
    let levels = MAX_STEPS - below.steps().len();
    let items = items_below(alloc, tree, below, levels)?;
    print_items(groups, Trail::of(alloc, below)?, &items)
}

/// Puts the lines of the statement of a path at the end of each group, where it is there.
fn print_alone(alloc: Global, groups: &mut Groups, tree: &Tree, path: &Path) -> Result<(), NoMemory>
    ensures { OnOk result (ArePaths tree.now (path.now ∷ []) groups.old groups.new) }
{
    match tree.at(path) {
        None => Ok(()),
        Some(value) => {
            let steps = tree.children(path)?;
            let at = Trail::of(alloc, path)?;
            push_statement(groups, &at, value, steps.as_slice().is_empty())
        }
    }
}

fn print_shown(
    alloc: Global,
    groups: &mut Groups,
    tree: &Tree,
    below: &Path,
) -> Result<(), NoMemory>
    ensures { OnOk result (ArePaths tree.now (shown_of tree.now below.now) groups.old groups.new) }
{
    if opens(below) {
        print_level(alloc, groups, tree, below)
    } else {
        print_alone(alloc, groups, tree, below)
    }
}

/// The lines of the statements below a level or the top, or of a Leaf, Flag or Many.
pub fn print_lines(alloc: Global, tree: &Tree, below: &Path) -> Result<Bytes, NoMemory>
    ensures { IfOk result (λ bytes. bytes ≡ printed_set tree.now below.now) }
{
    let mut groups = Groups::new(alloc);
    print_shown(alloc, &mut groups, tree, below)?;
    Ok(Bytes::from(groups.joined()?))
}
