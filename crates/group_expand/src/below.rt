//! The expansion from the top down.

ghost use Rattle.std.specs.Prelude.{◌≡◌, ◌<◌, ◌≤◌, ◌+◌, ◌++◌, ◌∷◌, [], length, true, IfOk, IsErrOf};
ghost use Rattle.cfg_base.specs.declared.path.TheConstants.{MAX_STEPS};
ghost use Rattle.cfg_schema.specs.Place.{place_of};
ghost use Rattle.cfg_tree.specs.Statements.{last_of, parent_of};
ghost use Rattle.cfg_tree.specs.declared.limit.TheConstants.{MAX_EXPANDED};
ghost use Rattle.group_expand.specs.Sources.{is_plain};
ghost use Rattle.group_expand.specs.Placed.{run_at, look_of, kids_of, given_below, given_for, IsRow, IsLevelAt};

use crate::fault::ExpandFault;
use crate::given::{child, opened, pushed};
use crate::join::run_in;
use crate::level::Level;
use crate::offer::Offer;
use crate::plan::Plan;
use crate::run::{behind_run, first_run, first_step, own_of, run_gift};
use crate::unaltered::{push_unaltered, unaltered_of};
use cfg_base::{Path, Step};
use cfg_schema::Place;
use cfg_tree::FullMaker;
use std::alloc::Global;

/// A path, where it is in the expansion, and all below it.
#[cycle(expanding)]
fn expand_path<'m>(
    alloc: Global,
    plan: &Plan<'_>,
    levels: usize,
    path: &Path,
    above: &Option<Place>,
    step: &Step,
    run: &[Offer<'_>],
    made: FullMaker<'m>,
) -> Result<FullMaker<'m>, ExpandFault>
    requires long { 0 < length path.now }
    requires step { step.now ≡ last_of path.now }
    requires above { above.now ≡ place_of (parent_of path.now) }
    requires run { run.now ≡ run_at (look_of plan.now) (kids_of plan.now) plan.now (parent_of path.now) (last_of path.now) }
    requires plain { is_plain path.now ≡ true }
    requires deep { MAX_STEPS ≤ levels + length path.now }
    requires row { IsRow plan.now }
    ensures ok { IfOk result (λ maker. maker ≡ made.entry ++ given_for plan.now levels (parent_of path.now) (last_of path.now)) }
    ensures wide { IsErrOf result ExpandFault.TooWide → MAX_EXPANDED < length made.entry + length (given_for plan.now levels (parent_of path.now) (last_of path.now)) }
{
    match run_gift(alloc, path, step, run)? {
        None => Ok(made),
        Some(gift) => {
            let (given, level, place) = opened(alloc, plan, path, above, step, run, gift)?;
            match pushed(made, path.clone()?, given) {
                Ok(made) => expand_level(alloc, plan, levels, path, &place, &level, made),
                Err(fault) => Err(fault),
            }
        }
    }
}

/// A step of a level, where its path is in the expansion, and all below it.
#[cycle(expanding)]
fn expand_run<'m>(
    alloc: Global,
    plan: &Plan<'_>,
    levels: usize,
    above: &Path,
    place: &Option<Place>,
    step: &Step,
    run: &[Offer<'_>],
    made: FullMaker<'m>,
) -> Result<FullMaker<'m>, ExpandFault>
    requires place { place.now ≡ place_of above.now }
    requires run { run.now ≡ run_at (look_of plan.now) (kids_of plan.now) plan.now above.now step.now }
    requires plain { is_plain (above.now ++ step.now ∷ []) ≡ true }
    requires deep { MAX_STEPS ≤ levels + length above.now + 1 }
    requires row { IsRow plan.now }
    ensures ok { IfOk result (λ maker. maker ≡ made.entry ++ given_for plan.now levels above.now step.now) }
    ensures wide { IsErrOf result ExpandFault.TooWide → MAX_EXPANDED < length made.entry + length (given_for plan.now levels above.now step.now) }
{
    // Where nothing is inherited, what stands there and below is as it was.
    if let Some(node) = unaltered_of(run) {
        return push_unaltered(alloc, node, made);
    }
    // A statement of the configuration's own has its path already.
    if let Some(node) = own_of(run) {
        return expand_path(alloc, plan, levels, node.path(), place, step, run, made);
    }
    let path = child(above, step)?;
    expand_path(alloc, plan, levels, &path, place, step, run, made)
}

/// All that is in the expansion below a path of this place.
#[cycle(expanding)]
pub fn expand_level<'m>(
    alloc: Global,
    plan: &Plan<'_>,
    levels: usize,
    path: &Path,
    place: &Option<Place>,
    level: &Level<'_>,
    made: FullMaker<'m>,
) -> Result<FullMaker<'m>, ExpandFault>
    requires level { IsLevelAt (look_of plan.now) (kids_of plan.now) plan.now path.now level.now }
    requires place { 0 < length level.now.plain → place.now ≡ place_of path.now }
    requires deep { MAX_STEPS ≤ levels + length path.now }
    requires row { IsRow plan.now }
    ensures ok { IfOk result (λ maker. maker ≡ made.entry ++ given_below plan.now levels path.now) }
    ensures wide { IsErrOf result ExpandFault.TooWide → MAX_EXPANDED < length made.entry + length (given_below plan.now levels path.now) }
{
    if levels == 0 {
        return Ok(made);
    }
    let mut maker = made;
    let mut left = level.plain();
    while !left.is_empty() {
        let step = first_step(left);
        let run = run_in(alloc, step, first_run(left), level.wild())?;
        match expand_run(alloc, plan, levels - 1, path, place, step, &run, maker) {
            Ok(more) => maker = more,
            Err(fault) => return Err(fault),
        }
        left = behind_run(left);
    }
    Ok(maker)
}
