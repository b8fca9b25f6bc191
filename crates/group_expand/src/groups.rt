//! The live groups, which are looked up by their names.

ghost use Rattle.std.specs.Prelude.{◌≡◌, [], find};
ghost use Rattle.std.specs.Option.{option_to_list};
ghost use Rattle.cfg_tree.specs.Statements.{last_of};
ghost use Rattle.cfg_tree.specs.Tree.{step_of};
ghost use Rattle.group_expand.specs.Sources.{groups_step, same_step};
ghost use Rattle.group_expand.specs.Fitting.{exact};
ghost use Rattle.group_expand.specs.Runs.{own_nodes};

use crate::front::node_with;
use crate::node::Node;
use crate::step::groups;
use cfg_base::Word;
use std::marker::Model;

/// The live groups: what stands right below `groups`, where it is there.
#[derive(Debug, Drop)]
pub struct LiveGroups<'a> {
    node: Option<Node<'a>>,
}

impl<'a> Model for LiveGroups<'a> {
    ghost use Rattle.std.specs.Prelude.{List};
    ghost use Rattle.group_expand.specs.Node as nodes;
    ghost use Rattle.group_expand.specs.Runs.{own_nodes};

    ghost Value = { List nodes.Node };

    ghost view = { λ g. own_nodes g.node };
}

impl<'a> LiveGroups<'a> {
    /// The groups among the statements at the top.
    pub fn among(top: &[Node<'a>]) -> LiveGroups<'a>
        ensures { result ≡ own_nodes (find (λ n. same_step groups_step (last_of n.path)) top.now) }
    {
        let node = match node_with(top, groups()) {
            None => None,
            Some(node) => Some(node.same()),
        };
        LiveGroups { node }
    }

    /// The group of this name.
    pub fn named(&self, name: &Word) -> Option<Node<'a>>
        ensures { option_to_list result ≡ exact (step_of [] name.now) self.now }
    {
        match &self.node {
            None => None,
            Some(node) => node.child(b"", name.as_bytes()),
        }
    }
}
