//! The least path at which a rule doesn't hold.

ghost use Rattle.std.specs.Prelude.{IfOk, MatchOption, ◌≤◌};
ghost use Rattle.std.specs.FinMap as map;
ghost use Rattle.cfg_tree.specs.declared.limit.TheConstants.{MAX_EXPANDED};
ghost use Rattle.commit_check.specs.Least.{IsLeast};
ghost use Rattle.commit_check.specs.Rules.{Fails};
ghost use Rattle.commit_check.specs.Accepts.{Holds};

use crate::breach::least_breach;
use crate::groups::least_unknown;
use crate::repeat::least_repeat;
use crate::rule::CommitRule;
use crate::size::least_too_long;
use cfg_base::{NoMemory, Path};
use cfg_tree::{Full, Tree};
use std::alloc::Global;

/// The least path at which a rule doesn't hold, where there is an expansion.
pub fn least(
    alloc: Global,
    rule: CommitRule,
    tree: &Tree,
    full: &Full,
) -> Result<Option<Path>, NoMemory>
    requires { map.len full.now ≤ MAX_EXPANDED }
    ensures { IfOk result (λ found. MatchOption found (Holds rule tree.now full.now) (IsLeast (Fails rule tree.now full.now))) }
{
    match rule {
        // An expansion has no more paths than it may have.
        CommitRule::Width => Ok(None),
        CommitRule::Groups => least_unknown(alloc, tree),
        CommitRule::Each(rule) => least_breach(alloc, rule, full),
        CommitRule::Apart(rule) => least_repeat(alloc, rule, full),
        CommitRule::TextLength => Ok(least_too_long(alloc, tree)),
    }
}
