//! Which steps fit one another.

ghost use Rattle.std.specs.Prelude.{◌≡◌, true, [], ◌||◌, codes};
ghost use Rattle.cfg_base.specs.Bytes.{between};
ghost use Rattle.cfg_tree.specs.Tree.{step_of};
ghost use Rattle.group_expand.specs.Sources.{same_step, is_wildcard, fits_wildcard, apply_step, except_step};

use cfg_base::{Step, Word};
use glob_name::matches;

/// Whether a name is a wildcard.
pub fn is_wildcard(name: &Word) -> bool
    ensures { result ≡ is_wildcard name.now }
{
    match name.as_bytes() {
        [b'<', ..] => true,
        _ => false,
    }
}

/// What stands between the angles of a wildcard name.
fn inner(name: &Word) -> &[u8]
    requires { is_wildcard name.now ≡ true }
    ensures { result.now ≡ between name.now }
{
    let rest = name.as_bytes().split_at(1).1;
    rest.split_at(rest.len().saturating_sub(1)).0
}

/// Whether the wildcard name of a step fits another step.
pub fn fits_wildcard(step: &Step, other: &Step) -> bool
    ensures { result ≡ fits_wildcard step.now other.now }
{
    step.head.as_bytes() == other.head.as_bytes()
        && is_wildcard(&other.name)
        && matches(inner(&other.name), step.name.as_bytes())
}

/// Whether a step has these words.
pub fn is_step(head: &[u8], name: &[u8], step: &Step) -> bool
    ensures { result ≡ same_step (step_of head.now name.now) step.now }
{
    head == step.head.as_bytes() && name == step.name.as_bytes()
}

/// The word below which groups stand.
pub fn groups() -> &'static [u8]
    ensures { result.now ≡ codes "groups" }
{
    b"groups"
}

/// The word that applies groups.
pub fn apply_groups() -> &'static [u8]
    ensures { result.now ≡ codes "apply-groups" }
{
    b"apply-groups"
}

/// The word that excepts groups.
pub fn apply_groups_except() -> &'static [u8]
    ensures { result.now ≡ codes "apply-groups-except" }
{
    b"apply-groups-except"
}

/// Whether a step is this head without a name.
pub fn is_head(head: &[u8], step: &Step) -> bool
    ensures { result ≡ same_step (step_of head.now []) step.now }
{
    is_step(head, b"", step)
}

/// Whether a step applies or excepts groups.
pub fn is_apply(step: &Step) -> bool
    ensures { result ≡ (same_step apply_step step.now || same_step except_step step.now) }
{
    is_head(apply_groups(), step) || is_head(apply_groups_except(), step)
}
