//! A level: the configuration's own statements and what groups offer there, by their steps, and the wildcards of groups.

ghost use Rattle.std.specs.Prelude.{◌≡◌, filter, IfOk};
ghost use Rattle.group_expand.specs.Offer.{offered};
ghost use Rattle.group_expand.specs.Level.{with_ranks, is_unmatched, is_wild_at, IsByStep, IsLevel};

use crate::node::Node;
use crate::offer::{Offer, Source, offered};
use cfg_base::{NoMemory, Step};
use std::alloc::Global;
use std::marker::Model;

/// An offer of a level, and how many of the level's offers come before it in the order of the sources.
#[derive(Debug, Drop)]
pub struct Ranked<'a> {
    rank: usize,
    offer: Offer<'a>,
}

impl<'a> Model for Ranked<'a> {
    ghost use Rattle.group_expand.specs.Level as level;

    ghost Value = { level.Ranked };

    ghost view = { λ r. record { rank = r.rank; offer = r.offer } };
}

impl<'a> Ranked<'a> {
    pub fn rank(&self) -> usize
        ensures { result ≡ self.now.rank }
    {
        self.rank
    }

    pub fn offer(&self) -> &Offer<'a>
        ensures { result.now ≡ self.now.offer }
    {
        &self.offer
    }

    pub fn step(&self) -> &'a Step
        ensures { result.now ≡ self.now.offer.step }
    {
        self.offer.step()
    }
}

/// The plain offers of a level by their steps, and its wildcards in the order of the sources. What a wildcard offers is made step
/// by step, so that a level takes no more memory than what stands in it.
#[derive(Debug, Drop)]
pub struct Level<'a> {
    plain: Vec<Ranked<'a>>,
    wild: Vec<Ranked<'a>>,
}

impl<'a> Model for Level<'a> {
    ghost use Rattle.group_expand.specs.Level as level;

    ghost Value = { level.Level };

    ghost view = { λ l. record { plain = l.plain.items; wild = l.wild.items } };
}

impl<'a> Level<'a> {
    pub fn plain(&self) -> &[Ranked<'a>]
        ensures { result.now ≡ self.now.plain }
    {
        &self.plain
    }

    pub fn wild(&self) -> &[Ranked<'a>]
        ensures { result.now ≡ self.now.wild }
    {
        &self.wild
    }
}

fn with_rank<'a>(rank: usize, offer: &Offer<'a>) -> Ranked<'a>
    ensures rank { result.rank ≡ rank }
    ensures offer { result.offer ≡ offer.now }
{
    Ranked {
        rank,
        offer: offer.same(),
    }
}

fn plain_of<'a>(alloc: Global, offers: &[Offer<'a>]) -> Result<Vec<Ranked<'a>>, NoMemory>
    ensures { IfOk result (λ plain. plain.items ≡ filter is_unmatched (with_ranks 0 offers.now)) }
{
    let mut plain = Vec::new(alloc);
    for (rank, offer) in offers.iter().enumerate() {
        if !offer.is_wild() {
            plain.push(with_rank(rank, offer))?;
        }
    }
    Ok(plain)
}

fn wild_of<'a>(alloc: Global, offers: &[Offer<'a>]) -> Result<Vec<Ranked<'a>>, NoMemory>
    ensures { IfOk result (λ wild. wild.items ≡ filter is_wild_at (with_ranks 0 offers.now)) }
{
    let mut wild = Vec::new(alloc);
    for (rank, offer) in offers.iter().enumerate() {
        if offer.is_wild() {
            wild.push(with_rank(rank, offer))?;
        }
    }
    Ok(wild)
}

/// The plain offers by their steps, those of one step as they were made.
fn sorted<'a>(alloc: Global, offers: &[Offer<'a>]) -> Result<Vec<Ranked<'a>>, NoMemory>
    ensures { IfOk result (λ plain. IsByStep (filter is_unmatched (with_ranks 0 offers.now)) plain.items) }
{
    let mut plain = plain_of(alloc, offers)?;
    plain.sort_by(|one, other| one.step().cmp(other.step()))?;
    Ok(plain)
}

/// The level of these offers.
fn parted<'a>(alloc: Global, offers: &[Offer<'a>]) -> Result<Level<'a>, NoMemory>
    ensures { IfOk result (λ level. IsLevel offers.now level) }
{
    let plain = sorted(alloc, offers)?;
    let wild = wild_of(alloc, offers)?;
    Ok(Level { plain, wild })
}

/// A level: the configuration's own statements and what groups offer.
pub fn level_of<'a>(
    alloc: Global,
    own: &[Node<'a>],
    front: &[Source<'a>],
) -> Result<Level<'a>, NoMemory>
    ensures { IfOk result (λ level. IsLevel (offered own.now front.now) level) }
{
    let offers = offered(alloc, own, front)?;
    parted(alloc, &offers)
}
