//! Statements with what stands below them.

ghost use Rattle.std.specs.Prelude.{◌≡◌, ◌<◌, length, IfOk};
ghost use Rattle.std.specs.Option.{option_to_list};
ghost use Rattle.cfg_tree.specs.Statements.{last_of};
ghost use Rattle.cfg_tree.specs.Tree.{step_of};
ghost use Rattle.group_expand.specs.Row.{Counted, Ordered, path_in};
ghost use Rattle.group_expand.specs.Node.{AreInside, FirstNode, begins_live, first_child, live_children, children_of};
ghost use Rattle.group_expand.specs.Fitting.{exact, wildcards_of};

use crate::cut::cut_at;
use crate::row::{Statement, beside, inside};
use crate::step::is_step;
use cfg_base::{NoMemory, Path, Step, Value};
use std::alloc::Global;
use std::marker::Model;

/// A statement, and the part of the row that stands below it.
#[derive(Debug, Drop)]
pub struct Node<'a> {
    path: &'a Path,
    value: &'a Value,
    below: &'a [Statement<'a>],
}

impl<'a> Model for Node<'a> {
    ghost use Rattle.group_expand.specs.Node as node;

    ghost Value = { node.Node };

    ghost view = { λ n. record { path = n.path.now; value = n.value.now; below = n.below.now } };

    ghost invariant = { λ n. node.IsPart n.path.now n.below.now };
}

impl<'a> Node<'a> {
    pub fn path(&self) -> &'a Path
        ensures { result.now ≡ self.now.path }
    {
        self.path
    }

    /// The last step of its path.
    pub fn step(&self) -> &'a Step
        ensures { result.now ≡ last_of self.now.path }
    {
        let steps = self.path.steps();
        &steps[steps.len() - 1]
    }

    pub fn value(&self) -> &'a Value
        ensures { result.now ≡ self.now.value }
    {
        self.value
    }

    /// What stands below it.
    pub fn below(&self) -> &'a [Statement<'a>]
        ensures { result.now ≡ self.now.below }
    {
        self.below
    }

    /// The same node.
    pub fn same(&self) -> Node<'a>
        ensures { result ≡ self.now }
    {
        Node {
            path: self.path,
            value: self.value,
            below: self.below,
        }
    }

    /// The live statement right below it whose step has these words.
    pub fn child(&self, head: &[u8], name: &[u8]) -> Option<Node<'a>>
        ensures { option_to_list result ≡ exact (step_of head.now name.now) (children_of self.now) }
    {
        let from = cut_at(self.path, self.below, head, name).1;
        match first_child(self.path, from) {
            None => None,
            Some(child) if is_step(head, name, child.step()) => Some(child),
            Some(_) => None,
        }
    }

    /// The live statements right below it that have a head and a wildcard name.
    pub fn wildcards(&self, alloc: Global, head: &[u8]) -> Result<Vec<Node<'a>>, NoMemory>
        ensures { IfOk result (λ nodes. nodes.items ≡ wildcards_of head.now self.now) }
    {
        // The names that begin with `<` are those from `<` up to `=`.
        let from = cut_at(self.path, self.below, head, b"<").1;
        let part = cut_at(self.path, from, head, b"=").0;
        live_children(alloc, self.path, part)
    }

    /// The live statements right below it.
    pub fn children(&self, alloc: Global) -> Result<Vec<Node<'a>>, NoMemory>
        ensures { IfOk result (λ nodes. nodes.items ≡ children_of self.now) }
    {
        live_children(alloc, self.path, self.below)
    }
}

/// Whether the first statement is right below a path and has no inactive mark.
fn begins_live(above: &Path, part: &[Statement<'_>]) -> bool
    requires some { 0 < length part.now }
    requires inside { AreInside above.now part.now }
    ensures { result ≡ begins_live above.now part.now }
{
    part[0].depth() == above.steps().len() + 1 && !part[0].value().inactive
}

/// The first statement, with what stands below it.
fn first_node<'a>(part: &'a [Statement<'a>]) -> Node<'a>
    requires some { 0 < length part.now }
    requires long { 0 < length (path_in part.now) }
    requires counted { Counted part.now }
    requires ordered { Ordered part.now }
    ensures { FirstNode part.now result }
{
    Node {
        path: part[0].path(),
        value: part[0].value(),
        below: inside(part),
    }
}

/// The first statement, where it is live and right below a path.
fn first_child<'a>(above: &Path, part: &'a [Statement<'a>]) -> Option<Node<'a>>
    requires counted { Counted part.now }
    requires ordered { Ordered part.now }
    requires inside { AreInside above.now part.now }
    ensures { option_to_list result ≡ first_child above.now part.now }
{
    if part.is_empty() || !begins_live(above, part) {
        return None;
    }
    Some(first_node(part))
}

/// The live statements right below a path, of those that stand below it.
pub fn live_children<'a>(
    alloc: Global,
    above: &Path,
    below: &'a [Statement<'a>],
) -> Result<Vec<Node<'a>>, NoMemory>
    requires counted { Counted below.now }
    requires ordered { Ordered below.now }
    requires inside { AreInside above.now below.now }
    ensures { IfOk result (λ nodes. nodes.items ≡ live_children above.now below.now) }
{
    let mut nodes = Vec::new(alloc);
    let mut left = below;
    while !left.is_empty() {
        if begins_live(above, left) {
            nodes.push(first_node(left))?;
        }
        left = beside(left);
    }
    Ok(nodes)
}
