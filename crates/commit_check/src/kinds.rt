//! Which statements the rules speak of.

ghost use Rattle.std.specs.Prelude.{◌≡◌, ◌<◌};
ghost use Rattle.std.specs.List.{AllByRecursion};
ghost use Rattle.cfg_schema.specs.Profile.{is_step_of};
ghost use Rattle.cfg_schema.specs.declared.rows.TheConstants.{ROWS};
ghost use Rattle.commit_check.specs.Kinds.{begin_as, is_user, is_user_class, is_vlan_id, is_route, is_neighbor, is_policy_list, is_from_list, is_filter_use, is_filter_end};

use cfg_base::{Path, Step};
use cfg_schema::{RowId, RowWords};

/// Whether a step is one of a row.
fn is_of(step: &Step, row: u8) -> bool
    requires { row < ROWS }
    ensures { result ≡ is_step_of row step.now }
{
    RowWords::of(RowId::at(usize::from(row))).tell(step)
}

#[inline(never)]
#[tactic(auto, using(crate::proofs::StartLemmas::never_as))]
fn begin_alike(steps: &[Step], rows: &[u8]) -> bool
    requires { AllByRecursion (λ row. row < ROWS) rows.now }
    ensures { result ≡ begin_as rows.now steps.now }
{
    match (steps, rows) {
        ([], []) => true,
        ([step, steps @ ..], [row, rows @ ..]) => is_of(step, *row) && begin_alike(steps, rows),
        ([], [_, ..]) | ([_, ..], []) => false,
    }
}

/// Whether steps are of these rows, one by one.
#[inline(always)]
#[tactic(auto, using(crate::proofs::StartLemmas::never_as))]
pub fn begin_as(steps: &[Step], rows: &[u8]) -> bool
    requires { AllByRecursion (λ row. row < ROWS) rows.now }
    ensures { result ≡ begin_as rows.now steps.now }
{
    // The steps of most paths are too many or too few, and aren't read.
    steps.len() == rows.len() && begin_alike(steps, rows)
}

/// Whether a path is that of a user.
pub fn is_user(path: &Path) -> bool
    ensures { result ≡ is_user path.now }
{
    begin_as(path.steps(), &[6, 11, 14])
}

/// Whether a path is that of a user's class.
pub fn is_user_class(path: &Path) -> bool
    ensures { result ≡ is_user_class path.now }
{
    begin_as(path.steps(), &[6, 11, 14, 17])
}

/// Whether a path is that of a unit's `vlan-id`.
pub fn is_vlan_id(path: &Path) -> bool
    ensures { result ≡ is_vlan_id path.now }
{
    begin_as(path.steps(), &[30, 31, 36, 39])
}

/// Whether a path is that of a static route.
pub fn is_route(path: &Path) -> bool
    ensures { result ≡ is_route path.now }
{
    begin_as(path.steps(), &[43, 44, 45])
}

/// Whether a path is that of a BGP neighbor.
pub fn is_neighbor(path: &Path) -> bool
    ensures { result ≡ is_neighbor path.now }
{
    begin_as(path.steps(), &[51, 52, 53, 59])
}

/// Whether a path is that of a list of policies.
pub fn is_policy_list(path: &Path) -> bool
    ensures { result ≡ is_policy_list path.now }
{
    let steps = path.steps();
    begin_as(steps, &[51, 52, 53, 56])
        || begin_as(steps, &[51, 52, 53, 57])
        || begin_as(steps, &[51, 52, 53, 59, 61])
        || begin_as(steps, &[51, 52, 53, 59, 62])
        || begin_as(steps, &[51, 64, 65])
}

/// Whether a path is that of a prefix list from which a policy takes.
pub fn is_from_list(path: &Path) -> bool
    ensures { result ≡ is_from_list path.now }
{
    let steps = path.steps();
    begin_as(steps, &[73, 76, 77, 78, 81]) || begin_as(steps, &[73, 76, 91, 81])
}

/// Whether a path is that of a filter's use at a unit.
pub fn is_filter_use(path: &Path) -> bool
    ensures { result ≡ is_filter_use path.now }
{
    let steps = path.steps();
    begin_as(steps, &[30, 31, 36, 40, 96, 97]) || begin_as(steps, &[30, 31, 36, 40, 96, 98])
}

/// Whether a path is that of the end of a filter's term.
pub fn is_filter_end(path: &Path) -> bool
    ensures { result ≡ is_filter_end path.now }
{
    begin_as(path.steps(), &[99, 100, 101, 102, 110])
}
