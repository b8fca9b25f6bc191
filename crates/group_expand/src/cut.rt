//! What stands below a path, cut at a step right below it.

ghost use Rattle.std.specs.Prelude.{◌≡◌, slice_get};
ghost use Rattle.cfg_tree.specs.Tree.{step_of};
ghost use Rattle.group_expand.specs.Row.{Ordered};
ghost use Rattle.group_expand.specs.Node.{AreInside};
ghost use Rattle.group_expand.specs.Cut.{comes_before, is_earlier, before_of, from_of};

use crate::row::Statement;
use cfg_base::{Path, Step};

/// Whether a step comes before the one of these words.
fn comes_before(head: &[u8], name: &[u8], step: &Step) -> bool
    ensures { result ≡ comes_before (step_of head.now name.now) step.now }
{
    step.head
        .as_bytes()
        .cmp(head)
        .then(step.name.as_bytes().cmp(name))
        .is_lt()
}

/// Whether a statement's step at a depth comes before the one of these words.
fn is_earlier(depth: usize, head: &[u8], name: &[u8], statement: &Statement<'_>) -> bool
    ensures { result ≡ is_earlier (step_of head.now name.now) (slice_get statement.now.path depth) }
{
    match statement.path().steps().get(depth) {
        None => false,
        Some(step) => comes_before(head, name, step),
    }
}

/// What stands below a path, cut at the step of these words right below it: what is before, and the rest.
pub fn cut_at<'s, 'a>(
    above: &Path,
    part: &'s [Statement<'a>],
    head: &[u8],
    name: &[u8],
) -> (&'s [Statement<'a>], &'s [Statement<'a>])
    requires ordered { Ordered part.now }
    requires inside { AreInside above.now part.now }
    ensures before { result.0.now ≡ before_of above.now (step_of head.now name.now) part.now }
    ensures from { result.1.now ≡ from_of above.now (step_of head.now name.now) part.now }
{
    let depth = above.steps().len();
    let count = part.partition_point(|statement| is_earlier(depth, head, name, statement));
    part.split_at(count)
}
