//! What of a group fits a path.

ghost use Rattle.std.specs.Prelude.{◌≡◌, [], ◌++◌, flat_map, IfOk, OnOk};
ghost use Rattle.cfg_tree.specs.Tree.{step_of};
ghost use Rattle.group_expand.specs.Node.{children_of};
ghost use Rattle.group_expand.specs.Fitting.{exact, wild, fits_of, fitting_of};

use crate::groups::LiveGroups;
use crate::node::Node;
use crate::step::fits_wildcard;
use cfg_base::{NoMemory, Step, Word};
use std::alloc::Global;

/// Puts the node right below another one that has a step after others.
fn push_child<'a>(found: &mut Vec<Node<'a>>, step: &Step, node: &Node<'a>) -> Result<(), NoMemory>
    ensures { OnOk result (found.new.items ≡ found.old.items ++ exact step.now (children_of node.now)) }
{
    if let Some(child) = node.child(step.head.as_bytes(), step.name.as_bytes()) {
        found.push(child)?;
    }
    Ok(())
}

/// Puts the nodes whose wildcards match a step after others.
fn push_wild<'a>(found: &mut Vec<Node<'a>>, step: &Step, nodes: &[Node<'a>]) -> Result<(), NoMemory>
    ensures { OnOk result (found.new.items ≡ found.old.items ++ wild step.now nodes.now) }
{
    for node in nodes {
        if fits_wildcard(step, node.step()) {
            found.push(node.same())?;
        }
    }
    Ok(())
}

/// Puts what fits a step right below a node after others.
fn push_fits<'a>(
    alloc: Global,
    found: &mut Vec<Node<'a>>,
    step: &Step,
    node: &Node<'a>,
) -> Result<(), NoMemory>
    ensures { OnOk result (found.new.items ≡ found.old.items ++ fits_of step.now node.now) }
{
    push_child(found, step, node)?;
    let wildcards = node.wildcards(alloc, step.head.as_bytes())?;
    push_wild(found, step, &wildcards)
}

/// What fits a step right below these nodes.
fn one_down<'a>(alloc: Global, nodes: &[Node<'a>], step: &Step) -> Result<Vec<Node<'a>>, NoMemory>
    ensures { IfOk result (λ found. found.items ≡ flat_map (fits_of step.now) nodes.now) }
{
    let mut found = Vec::new(alloc);
    for node in nodes {
        push_fits(alloc, &mut found, step, node)?;
    }
    Ok(found)
}

/// The group of a name, where it is there.
fn group_named<'a>(
    alloc: Global,
    groups: &LiveGroups<'a>,
    name: &Word,
) -> Result<Vec<Node<'a>>, NoMemory>
    ensures { IfOk result (λ found. found.items ≡ exact (step_of [] name.now) groups.now) }
{
    let mut found = Vec::new(alloc);
    if let Some(node) = groups.named(name) {
        found.push(node)?;
    }
    Ok(found)
}

/// What of a group fits a path.
pub fn fitting<'a>(
    alloc: Global,
    groups: &LiveGroups<'a>,
    group: &Word,
    path: &[Step],
) -> Result<Vec<Node<'a>>, NoMemory>
    ensures { IfOk result (λ found. found.items ≡ fitting_of groups.now group.now path.now) }
{
    let mut found = group_named(alloc, groups, group)?;
    for step in path {
        found = one_down(alloc, &found, step)?;
    }
    Ok(found)
}
