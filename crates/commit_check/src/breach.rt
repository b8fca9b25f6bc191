//! The rules that each statement of the expansion meets by itself.

ghost use Rattle.std.specs.Prelude.{◌≡◌, ◌<◌, ◌∷◌, [], filter, IfOk, MatchOption};
ghost use Rattle.std.specs.Ordering.{is_le};
ghost use Rattle.std.specs.FinMap as map;
ghost use Rattle.commit_check.specs.Least.{Nowhere, IsLeast};
ghost use Rattle.commit_check.specs.Rules.{breaks, BreaksAt};
ghost use Rattle.cfg_base.specs.Order.{path_cmp};
ghost use Rattle.cfg_schema.specs.Profile.{head_of};
ghost use Rattle.cfg_schema.specs.declared.rows.TheConstants.{ROWS};
ghost use Rattle.commit_check.specs.Kinds.{plain};
ghost use Rattle.commit_check.specs.First.{first_of, top_row};

use crate::filters::{ends_twice, names_no_filter};
use crate::interfaces::lacks_tagging;
use crate::network::has_stray_bits;
use crate::peers::lacks_peer_as;
use crate::policies::{names_no_list, names_no_policy};
use crate::routes::lacks_one_way;
use crate::rule::StatementRule;
use crate::under::{has_left, top_of};
use crate::unit::names_no_unit;
use crate::users::{lacks_class, names_no_class};
use cfg_base::{NoMemory, Path, WordList};
use cfg_schema::{RowId, head};
use cfg_tree::Full;
use std::alloc::Global;

/// Whether a statement breaks a rule.
fn breaks(
    alloc: Global,
    rule: StatementRule,
    full: &Full,
    path: &Path,
    words: &WordList,
) -> Result<bool, NoMemory>
    ensures { IfOk result (λ told. told ≡ breaks rule full.now path.now words.now) }
{
    match rule {
        StatementRule::UserClass => lacks_class(alloc, full, path),
        StatementRule::KnownClass => names_no_class(alloc, full, path, words),
        StatementRule::VlanTagging => lacks_tagging(alloc, full, path),
        StatementRule::PeerAs => lacks_peer_as(alloc, full, path),
        StatementRule::Policies => names_no_policy(alloc, full, path, words),
        StatementRule::PrefixLists => names_no_list(alloc, full, path),
        StatementRule::OneWay => lacks_one_way(alloc, full, path),
        StatementRule::Units => names_no_unit(alloc, full, path),
        StatementRule::Network => Ok(has_stray_bits(path)),
        StatementRule::Filters => names_no_filter(alloc, full, path, words),
        StatementRule::FilterEnds => ends_twice(alloc, full, path),
    }
}

/// The row at the top below which all statements stand that can break a rule.
fn top_row(rule: StatementRule) -> u8
    ensures row { result ≡ top_row rule }
    ensures within { result < ROWS }
{
    match rule {
        StatementRule::UserClass | StatementRule::KnownClass => 6,
        StatementRule::VlanTagging | StatementRule::Filters => 30,
        StatementRule::OneWay | StatementRule::Network => 43,
        StatementRule::PeerAs | StatementRule::Policies | StatementRule::Units => 51,
        StatementRule::PrefixLists => 73,
        StatementRule::FilterEnds => 99,
    }
}

/// The first path at which a statement breaks a rule, from a path on, up to the first with another head.
fn first_from(
    alloc: Global,
    rule: StatementRule,
    full: &Full,
    start: &Path,
    head: &[u8],
) -> Result<Option<Path>, NoMemory>
    requires start { start.now ≡ plain (top_row rule) ∷ [] }
    requires head { head.now ≡ head_of (top_row rule) }
    ensures { IfOk result (λ found. found ≡ first_of (λ e. breaks rule full.now e.0 e.1.words)
        (filter (λ e. is_le (path_cmp start.now e.0)) (map.entries full.now))) }
{
    let mut left = full.walk_from(start);
    while let Some((path, given)) = left.next() {
        if has_left(head, path) {
            return Ok(None);
        }
        if breaks(alloc, rule, full, path, &given.words)? {
            return Ok(Some(path.clone()?));
        }
    }
    Ok(None)
}

/// The first path at which a statement breaks a rule.
fn first_breach(alloc: Global, rule: StatementRule, full: &Full) -> Result<Option<Path>, NoMemory>
    ensures { IfOk result (λ found. found ≡ first_of (λ e. breaks rule full.now e.0 e.1.words) (map.entries full.now)) }
{
    let row = top_row(rule);
    let start = top_of(alloc, row)?;
    first_from(alloc, rule, full, &start, head(RowId::at(usize::from(row))))
}

/// The least path at which a statement breaks a rule.
#[tactic(auto, using(crate::proofs::LeastLemmas::breach_least))]
pub fn least_breach(
    alloc: Global,
    rule: StatementRule,
    full: &Full,
) -> Result<Option<Path>, NoMemory>
    ensures { IfOk result (λ least. MatchOption least (Nowhere (BreaksAt rule full.now)) (IsLeast (BreaksAt rule full.now))) }
{
    first_breach(alloc, rule, full)
}
