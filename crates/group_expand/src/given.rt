//! What is given at a path, and the level below it.

ghost use Rattle.std.specs.Prelude.{◌≡◌, ◌<◌, ◌+◌, ◌++◌, ◌∷◌, [], length, true, Some, IfOk, IsErrOf};
ghost use Rattle.cfg_schema.specs.Place.{place_of, place_after, and_then};
ghost use Rattle.cfg_tree.specs.Statements.{last_of, parent_of};
ghost use Rattle.cfg_tree.specs.Tree.{ordered_head};
ghost use Rattle.cfg_tree.specs.declared.limit.TheConstants.{MAX_EXPANDED};
ghost use Rattle.group_expand.specs.Sources.{groups_step, is_plain};
ghost use Rattle.group_expand.specs.Fronts.{front_of};
ghost use Rattle.group_expand.specs.Made.{with_order, given_at};
ghost use Rattle.group_expand.specs.Offer.{offered};
ghost use Rattle.group_expand.specs.Level.{Climbs, IsLevel};
ghost use Rattle.group_expand.specs.Runs.{order_for, own_of, own_nodes, run_gift};
ghost use Rattle.group_expand.specs.Placed.{kids_at, look_of, kids_of, run_at, IsRow, IsLevelAt};

use crate::fault::ExpandFault;
use crate::front::front;
use crate::level::{Level, level_of};
use crate::node::Node;
use crate::offer::Offer;
use crate::order::order;
use crate::plan::Plan;
use crate::run::{Gift, own_of};
use cfg_base::{NoMemory, Path, Step};
use cfg_schema::Place;
use cfg_tree::{FullMaker, Given};
use std::alloc::Global;

/// A path with one more step.
pub fn child(above: &Path, step: &Step) -> Result<Path, NoMemory>
    ensures { IfOk result (λ path. path ≡ above.now ++ step.now ∷ []) }
{
    match above.push(step.clone()?) {
        Ok(path) => Ok(path),
        Err(_) => Err(NoMemory),
    }
}

/// The configuration's own live statements right below a path.
fn own_children<'a>(alloc: Global, run: &[Offer<'a>]) -> Result<Vec<Node<'a>>, NoMemory>
    ensures { IfOk result (λ nodes. nodes.items ≡ own_nodes (own_of run.now)) }
{
    match own_of(run) {
        None => Ok(Vec::new(alloc)),
        Some(node) => node.children(alloc),
    }
}

/// The level below a path.
pub fn level_below<'a>(
    alloc: Global,
    plan: &Plan<'a>,
    path: &Path,
    children: &[Node<'a>],
    run: &[Offer<'a>],
) -> Result<Level<'a>, NoMemory>
    ensures row { IsRow plan.now }
    ensures level { IfOk result (λ level. IsLevel (offered children.now (front_of (kids_at (look_of plan.now) (kids_of plan.now) plan.now (groups_step ∷ [])) path.now children.now run.now)) level) }
{
    let front = front(alloc, plan.groups(), path, children, run)?;
    level_of(alloc, children, &front)
}

/// What is given at a path of this place.
fn given(
    alloc: Global,
    place: &Option<Place>,
    run: &[Offer<'_>],
    children: &[Node<'_>],
    level: &Level<'_>,
    gift: Gift,
) -> Result<Given, NoMemory>
    requires { Climbs level.now.plain }
    ensures { IfOk result (λ given. given ≡ with_order (order_for (ordered_head place.now) (own_of run.now) children.now level.now) gift) }
{
    let order = order(alloc, place, own_of(run), children, level)?;
    let Gift { words, group } = gift;
    Ok(Given {
        words,
        order,
        group,
    })
}

/// The place of a step below another place, where there is one.
fn place_after(above: &Option<Place>, step: &Step) -> Option<Place>
    ensures { result ≡ and_then (λ here. place_after here step.now) above.now }
{
    match above {
        None => None,
        Some(here) => here.after(step),
    }
}

/// The place of a path whose parent has this place. Where nothing stands below the path, it isn't looked for.
fn place_below(
    above: &Option<Place>,
    path: &Path,
    step: &Step,
    children: &[Node<'_>],
    level: &Level<'_>,
) -> Option<Place>
    requires long { 0 < length path.now }
    requires step { step.now ≡ last_of path.now }
    requires above { above.now ≡ place_of (parent_of path.now) }
    ensures children { 0 < length children.now → result ≡ place_of path.now }
    ensures level { 0 < length level.now.plain → result ≡ place_of path.now }
{
    if children.is_empty() && level.plain().is_empty() {
        return None;
    }
    place_after(above, step)
}

/// What is given at a path that is in the expansion, the level below it, and the place of the path where that
/// level has offers.
pub fn opened<'a>(
    alloc: Global,
    plan: &Plan<'a>,
    path: &Path,
    above: &Option<Place>,
    step: &Step,
    run: &[Offer<'a>],
    gift: Gift,
) -> Result<(Given, Level<'a>, Option<Place>), NoMemory>
    requires long { 0 < length path.now }
    requires step { step.now ≡ last_of path.now }
    requires above { above.now ≡ place_of (parent_of path.now) }
    requires run { run.now ≡ run_at (look_of plan.now) (kids_of plan.now) plan.now (parent_of path.now) (last_of path.now) }
    requires plain { is_plain path.now ≡ true }
    requires gift { Some gift ≡ run_gift path.now (last_of path.now) run.now }
    ensures given { IfOk result (λ made. given_at (look_of plan.now) (kids_of plan.now) path.now ≡ Some made.0) }
    ensures level { IfOk result (λ made. IsLevelAt (look_of plan.now) (kids_of plan.now) plan.now path.now made.1) }
    ensures place { IfOk result (λ made. 0 < length made.1.plain → made.2 ≡ place_of path.now) }
{
    let children = own_children(alloc, run)?;
    let level = level_below(alloc, plan, path, &children, run)?;
    let place = place_below(above, path, step, &children, &level);
    let given = given(alloc, &place, run, &children, &level, gift)?;
    Ok((given, level, place))
}

/// One path more, where there is room.
pub fn pushed<'m>(
    made: FullMaker<'m>,
    path: Path,
    given: Given,
) -> Result<FullMaker<'m>, ExpandFault>
    ensures ok { IfOk result (λ maker. maker ≡ made.entry ++ (path, given) ∷ []) }
    ensures wide { IsErrOf result ExpandFault.TooWide → MAX_EXPANDED < length made.entry + 1 }
{
    if made.is_full() {
        return Err(ExpandFault::TooWide);
    }
    Ok(made.push(path, given)?)
}
