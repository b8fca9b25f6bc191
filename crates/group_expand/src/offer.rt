//! What a level is made of: live statements of the configuration, what groups offer, and their wildcards.

ghost use Rattle.std.specs.Prelude.{◌≡◌, ◌++◌, map, flat_map, IfOk, OnOk};
ghost use Rattle.std.specs.Option.{option_copied};
ghost use Rattle.group_expand.specs.Offer.{own_offer, node_offer, offer_for, is_wild, plain_offers, wild_offers, offers_of, offered};

use crate::node::Node;
use crate::step::is_wildcard;
use cfg_base::{NoMemory, Step, Word};
use std::alloc::Global;
use std::marker::Model;

/// A node of a group.
#[derive(Debug, Drop)]
pub struct Source<'a> {
    group: &'a Word,
    node: Node<'a>,
}

impl<'a> Model for Source<'a> {
    ghost use Rattle.group_expand.specs.Offer as offer;

    ghost Value = { offer.Source };

    ghost view = { λ s. record { group = s.group.now; node = s.node } };
}

impl<'a> Source<'a> {
    pub fn of(group: &'a Word, node: Node<'a>) -> Source<'a>
        ensures group { result.group ≡ group.now }
        ensures node { result.node ≡ node.entry }
    {
        Source { group, node }
    }

    pub fn group(&self) -> &'a Word
        ensures { result.now ≡ self.now.group }
    {
        self.group
    }

    pub fn node(&self) -> &Node<'a>
        ensures { result.now ≡ self.now.node }
    {
        &self.node
    }
}

/// A node that stands for a step: the configuration's own without a group, or one of a group. A group's wildcard
/// stands for its own step until it is matched.
#[derive(Debug, Drop)]
pub struct Offer<'a> {
    step: &'a Step,
    group: Option<&'a Word>,
    node: Node<'a>,
}

impl<'a> Model for Offer<'a> {
    ghost use Rattle.std.specs.Option.{option_copied};
    ghost use Rattle.group_expand.specs.Offer as offer;

    ghost Value = { offer.Offer };

    ghost view = { λ o. record { step = o.step.now; group = option_copied o.group; node = o.node } };
}

impl<'a> Offer<'a> {
    pub fn step(&self) -> &'a Step
        ensures { result.now ≡ self.now.step }
    {
        self.step
    }

    pub fn group(&self) -> Option<&'a Word>
        ensures { option_copied result ≡ self.now.group }
    {
        self.group
    }

    pub fn node(&self) -> &Node<'a>
        ensures { result.now ≡ self.now.node }
    {
        &self.node
    }

    /// Whether it is a group's wildcard.
    pub fn is_wild(&self) -> bool
        ensures { result ≡ is_wild self.now }
    {
        self.group.is_some() && is_wildcard(&self.step.name)
    }

    /// The same offer.
    pub fn same(&self) -> Offer<'a>
        ensures { result ≡ self.now }
    {
        Offer {
            step: self.step,
            group: self.group,
            node: self.node.same(),
        }
    }

    /// The same for a step.
    pub fn for_step(&self, step: &'a Step) -> Offer<'a>
        ensures { result ≡ offer_for step.now self.now }
    {
        Offer {
            step,
            group: self.group,
            node: self.node.same(),
        }
    }
}

fn own_offer<'a>(node: &Node<'a>) -> Offer<'a>
    ensures { result ≡ own_offer node.now }
{
    Offer {
        step: node.step(),
        group: None,
        node: node.same(),
    }
}

fn group_offer<'a>(group: &'a Word, node: &Node<'a>) -> Offer<'a>
    ensures { result ≡ node_offer group.now node.now }
{
    Offer {
        step: node.step(),
        group: Some(group),
        node: node.same(),
    }
}

fn push_own<'a>(offers: &mut Vec<Offer<'a>>, own: &[Node<'a>]) -> Result<(), NoMemory>
    ensures { OnOk result (offers.new.items ≡ offers.old.items ++ map own_offer own.now) }
{
    for node in own {
        offers.push(own_offer(node))?;
    }
    Ok(())
}

/// Puts what a group offers for the steps that its nodes have themselves after others.
fn push_plain<'a>(
    offers: &mut Vec<Offer<'a>>,
    group: &'a Word,
    nodes: &[Node<'a>],
) -> Result<(), NoMemory>
    ensures { OnOk result (offers.new.items ≡ offers.old.items ++ plain_offers group.now nodes.now) }
{
    for node in nodes {
        if !is_wildcard(&node.step().name) {
            offers.push(group_offer(group, node))?;
        }
    }
    Ok(())
}

/// Puts a group's wildcards after others.
fn push_wild<'a>(
    offers: &mut Vec<Offer<'a>>,
    group: &'a Word,
    nodes: &[Node<'a>],
) -> Result<(), NoMemory>
    ensures { OnOk result (offers.new.items ≡ offers.old.items ++ wild_offers group.now nodes.now) }
{
    for node in nodes {
        if is_wildcard(&node.step().name) {
            offers.push(group_offer(group, node))?;
        }
    }
    Ok(())
}

/// Puts all that a source offers right below it after others.
fn push_offers<'a>(
    alloc: Global,
    offers: &mut Vec<Offer<'a>>,
    source: &Source<'a>,
) -> Result<(), NoMemory>
    ensures { OnOk result (offers.new.items ≡ offers.old.items ++ offers_of source.now) }
{
    let children = source.node().children(alloc)?;
    push_plain(offers, source.group(), &children)?;
    push_wild(offers, source.group(), &children)
}

/// The configuration's own statements and what groups offer, in the order of the sources.
pub fn offered<'a>(
    alloc: Global,
    own: &[Node<'a>],
    front: &[Source<'a>],
) -> Result<Vec<Offer<'a>>, NoMemory>
    ensures { IfOk result (λ offers. offers.items ≡ offered own.now front.now) }
{
    let mut offers = Vec::new(alloc);
    push_own(&mut offers, own)?;
    for source in front {
        push_offers(alloc, &mut offers, source)?;
    }
    Ok(offers)
}
