//! The offers for one step of a level, with what its wildcards offer.

ghost use Rattle.std.specs.Prelude.{◌≡◌, ◌≤◌, ◌++◌, ◌∷◌, [], not, length, take, drop, map, filter, if◌then◌else◌, IfOk, OnOk};
ghost use Rattle.std.specs.List.{position, prefix_len};
ghost use Rattle.group_expand.specs.Offer.{offer_for};
ghost use Rattle.group_expand.specs.Runs.{begins_own, comes_before, is_matched, joined, run_in};

use crate::level::Ranked;
use crate::offer::Offer;
use crate::step::fits_wildcard;
use cfg_base::{NoMemory, Step};
use std::alloc::Global;

/// Whether the first of a level's offers for one step is the configuration's own.
pub fn begins_own(run: &[Ranked<'_>]) -> bool
    ensures { result ≡ begins_own run.now }
{
    match run.first() {
        None => false,
        Some(first) => first.offer().group().is_none(),
    }
}

fn first_behind(rank: usize, run: &[Ranked<'_>]) -> Option<usize>
    ensures { result ≡ position (λ r. not (comes_before rank r)) run.now }
{
    run.iter().position(|ranked| !(ranked.rank() < rank))
}

/// How many of the first offers come before a rank.
fn count_before(rank: usize, run: &[Ranked<'_>]) -> usize
    ensures is { result ≡ prefix_len (comes_before rank) run.now }
    ensures within { result ≤ length run.now }
{
    match first_behind(rank, run) {
        Some(at) => at,
        None => run.len(),
    }
}

/// The first offers of a part of a level.
fn before<'s, 'a>(part: &'s [Ranked<'a>], count: usize) -> &'s [Ranked<'a>]
    requires { count ≤ length part.now }
    ensures { result.now ≡ take count part.now }
{
    part.split_at(count).0
}

/// What stands after the first offers of a part of a level.
fn behind<'s, 'a>(part: &'s [Ranked<'a>], count: usize) -> &'s [Ranked<'a>]
    requires { count ≤ length part.now }
    ensures { result.now ≡ drop count part.now }
{
    part.split_at(count).1
}

/// Puts the offers of a part of a level after others.
fn push_part<'a>(made: &mut Vec<Offer<'a>>, part: &[Ranked<'a>]) -> Result<(), NoMemory>
    ensures { OnOk result (made.new.items ≡ made.old.items ++ map (λ r. r.offer) part.now) }
{
    for ranked in part {
        made.push(ranked.offer().same())?;
    }
    Ok(())
}

/// How many of the first offers come before a wildcard, where it matches; else none.
fn count_if(fits: bool, rank: usize, left: &[Ranked<'_>]) -> usize
    ensures is { result ≡ (if fits then prefix_len (comes_before rank) left.now else 0) }
    ensures within { result ≤ length left.now }
{
    if fits { count_before(rank, left) } else { 0 }
}

/// Puts what a wildcard offers for a step after others, where it matches.
fn push_if<'a>(
    made: &mut Vec<Offer<'a>>,
    fits: bool,
    step: &'a Step,
    wildcard: &Ranked<'a>,
) -> Result<(), NoMemory>
    ensures { OnOk result (made.new.items ≡ made.old.items ++ (if fits then offer_for step.now wildcard.now.offer ∷ [] else [])) }
{
    if fits {
        made.push(wildcard.offer().for_step(step))?;
    }
    Ok(())
}

/// Offers for a step, and between them those of the wildcards that match it, by their ranks.
fn joined<'a>(
    alloc: Global,
    step: &'a Step,
    run: &[Ranked<'a>],
    wild: &[Ranked<'a>],
) -> Result<Vec<Offer<'a>>, NoMemory>
    ensures { IfOk result (λ made. made.items ≡ joined step.now run.now (filter (is_matched step.now) wild.now)) }
{
    let mut made = Vec::new(alloc);
    let mut left = run;
    let mut more = wild;
    while !more.is_empty() {
        let wildcard = &more[0];
        let fits = fits_wildcard(step, wildcard.step());
        let count = count_if(fits, wildcard.rank(), left);
        push_part(&mut made, before(left, count))?;
        push_if(&mut made, fits, step, wildcard)?;
        left = behind(left, count);
        more = behind(more, 1);
    }
    push_part(&mut made, left)?;
    Ok(made)
}

/// All offers for a step. Wildcards match only the configuration's own.
pub fn run_in<'a>(
    alloc: Global,
    step: &'a Step,
    run: &[Ranked<'a>],
    wild: &[Ranked<'a>],
) -> Result<Vec<Offer<'a>>, NoMemory>
    ensures { IfOk result (λ made. made.items ≡ run_in step.now wild.now run.now) }
{
    if begins_own(run) {
        joined(alloc, step, run, wild)
    } else {
        joined(alloc, step, run, &[])
    }
}
