//! The row of a configuration's statements, and its groups.

ghost use Rattle.std.specs.Prelude.{◌≡◌, [], ◌∷◌, IfOk};
ghost use Rattle.group_expand.specs.Placed.{IsRow, kids_at, look_of, kids_of};
ghost use Rattle.group_expand.specs.Sources.{groups_step};

use crate::groups::LiveGroups;
use crate::node::{Node, live_children};
use crate::row::Statement;
use cfg_base::{NoMemory, Path};
use std::alloc::Global;
use std::marker::Model;

/// The row of a configuration's statements, and its live groups.
#[derive(Debug, Drop)]
pub struct Plan<'a> {
    row: &'a [Statement<'a>],
    groups: LiveGroups<'a>,
}

impl<'a> Model for Plan<'a> {
    ghost use Rattle.std.specs.Prelude.{List};
    ghost use Rattle.group_expand.specs.Row as stated;
    ghost use Rattle.group_expand.specs.Placed.{IsPlan};

    ghost Value = { List stated.StatementView };

    ghost view = { λ p. p.row.now };

    ghost invariant = { λ p. IsPlan p.row.now p.groups };
}

/// The live statements at the top of a row.
fn top_nodes<'a>(alloc: Global, row: &'a [Statement<'a>]) -> Result<Vec<Node<'a>>, NoMemory>
    requires { IsRow row.now }
    ensures { IfOk result (λ nodes. nodes.items ≡ kids_at (look_of row.now) (kids_of row.now) row.now []) }
{
    live_children(alloc, &Path::top(alloc), row)
}

/// The live groups of a row.
fn groups_of<'a>(alloc: Global, row: &'a [Statement<'a>]) -> Result<LiveGroups<'a>, NoMemory>
    requires { IsRow row.now }
    ensures { IfOk result (λ groups. groups ≡ kids_at (look_of row.now) (kids_of row.now) row.now (groups_step ∷ [])) }
{
    let top = top_nodes(alloc, row)?;
    Ok(LiveGroups::among(&top))
}

impl<'a> Plan<'a> {
    /// The plan of a row.
    pub fn of(alloc: Global, row: &'a [Statement<'a>]) -> Result<Plan<'a>, NoMemory>
        requires { IsRow row.now }
        ensures { IfOk result (λ plan. plan ≡ row.now) }
    {
        let groups = groups_of(alloc, row)?;
        Ok(Plan { row, groups })
    }

    /// The live groups.
    pub fn groups(&self) -> &LiveGroups<'a>
        ensures are { result.now ≡ kids_at (look_of self.now) (kids_of self.now) self.now (groups_step ∷ []) }
        ensures row { IsRow self.now }
    {
        &self.groups
    }

    /// The live statements at the top.
    pub fn top(&self, alloc: Global) -> Result<Vec<Node<'a>>, NoMemory>
        ensures { IfOk result (λ nodes. nodes.items ≡ kids_at (look_of self.now) (kids_of self.now) self.now []) }
    {
        top_nodes(alloc, self.row)
    }
}
