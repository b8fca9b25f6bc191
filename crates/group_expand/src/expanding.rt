//! The expansion of a configuration.

ghost use Rattle.std.specs.Prelude.{◌≡◌, ◌<◌, ◌≤◌, [], length, IfOk, OnOk, IsErrOf};
ghost use Rattle.std.specs.FinMap as map;
ghost use Rattle.cfg_tree.specs.Tree.{IsTree};
ghost use Rattle.cfg_base.specs.declared.path.TheConstants.{MAX_STEPS};
ghost use Rattle.cfg_tree.specs.Full.{Expansion};
ghost use Rattle.cfg_tree.specs.declared.limit.TheConstants.{MAX_EXPANDED};
ghost use Rattle.group_expand.specs.Expansion.{IsExpansion};
ghost use Rattle.group_expand.specs.Placed.{IsRow, IsLevelAt, look_of, kids_of, given_below};

use crate::below::expand_level;
use crate::fault::ExpandFault;
use crate::given::level_below;
use crate::level::Level;
use crate::plan::Plan;
use crate::row::{Statement, row_of};
use cfg_base::{MAX_STEPS, NoMemory, Path};
use cfg_schema::Place;
use cfg_tree::{Full, FullMaker, Tree};
use std::alloc::Global;

/// The level of the top.
fn top_level<'a>(alloc: Global, plan: &Plan<'a>, top: &Path) -> Result<Level<'a>, NoMemory>
    requires { top.now ≡ [] }
    ensures { IfOk result (λ level. IsLevelAt (look_of plan.now) (kids_of plan.now) plan.now [] level) }
{
    let own = plan.top(alloc)?;
    level_below(alloc, plan, top, &own, &[])
}

/// The expansion of the statements of a row, made beside an older one.
fn expanded(alloc: Global, row: &[Statement<'_>], older: &Full) -> Result<Full, ExpandFault>
    requires { IsRow row.now }
    ensures ok { IfOk result (λ full. full ≡ map.from_entries (given_below row.now MAX_STEPS [])) }
    ensures within { OnOk result (length (given_below row.now MAX_STEPS []) ≤ MAX_EXPANDED) }
    ensures wide { IsErrOf result ExpandFault.TooWide → MAX_EXPANDED < length (given_below row.now MAX_STEPS []) }
{
    let plan = Plan::of(alloc, row)?;
    let top = Path::top(alloc);
    let level = top_level(alloc, &plan, &top)?;
    let maker = FullMaker::beside(alloc, older);
    let place = Some(Place::top());
    match expand_level(alloc, &plan, MAX_STEPS, &top, &place, &level, maker) {
        Ok(made) => Ok(made.finish()?),
        Err(fault) => Err(fault),
    }
}

/// The configuration with all that its groups give. `TooWide` where that would have more than 65,536
/// paths.
pub fn expand(alloc: Global, tree: &Tree) -> Result<Full, ExpandFault>
    ensures ok { IfOk result (λ full. IsExpansion tree.now full) }
    ensures within { IfOk result (λ full. map.len full ≤ MAX_EXPANDED) }
    ensures wide { IsErrOf result ExpandFault.TooWide → (full : Expansion) × IsExpansion tree.now full × (MAX_EXPANDED < map.len full) }
    ensures tree { OnOk result (IsTree tree.now) }
{
    let none = Full::empty(alloc);
    expand_beside(alloc, tree, &none)
}

/// The same. What an older expansion has too is shared with it.
pub fn expand_beside(alloc: Global, tree: &Tree, older: &Full) -> Result<Full, ExpandFault>
    ensures ok { IfOk result (λ full. IsExpansion tree.now full) }
    ensures within { IfOk result (λ full. map.len full ≤ MAX_EXPANDED) }
    ensures wide { IsErrOf result ExpandFault.TooWide → (full : Expansion) × IsExpansion tree.now full × (MAX_EXPANDED < map.len full) }
    ensures tree { OnOk result (IsTree tree.now) }
{
    let row = row_of(alloc, tree)?;
    expanded(alloc, &row, older)
}
