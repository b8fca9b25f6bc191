//! Statements that stand in the expansion as they stand in the configuration, with all below them.

ghost use Rattle.std.specs.Prelude.{◌≡◌, ◌<◌, ◌+◌, ◌++◌, ◌∷◌, [], map, length, IfOk, IsErrOf};
ghost use Rattle.std.specs.List.{list_all};
ghost use Rattle.std.specs.Option.{option_copied};
ghost use Rattle.cfg_tree.specs.Full.{own_given};
ghost use Rattle.cfg_tree.specs.declared.limit.TheConstants.{MAX_EXPANDED};
ghost use Rattle.group_expand.specs.Expansion.{is_apply};
ghost use Rattle.group_expand.specs.Unaltered.{is_unaltered, is_unaltered_node, unaltered_if, unaltered_of};
ghost use Rattle.group_expand.specs.Unaltered.{own_entry, own_entries};

use crate::fault::ExpandFault;
use crate::given::pushed;
use crate::node::Node;
use crate::offer::Offer;
use crate::row::Statement;
use crate::run::is_outside;
use crate::step::is_apply;
use cfg_base::{NoMemory, Path, Value, Word};
use cfg_tree::{FullMaker, Given};
use std::alloc::Global;

/// Whether a path is that of an apply statement.
#[tactic(auto, using(crate::proofs::UnalteredLemmas::apply_last))]
fn is_apply_path(path: &Path) -> bool
    ensures { result ≡ is_apply path.now }
{
    match path.steps().last() {
        Some(step) => is_apply(step),
        None => false,
    }
}

/// Whether a statement has no inactive mark and is no apply statement.
fn is_unaltered(statement: &Statement<'_>) -> bool
    ensures { result ≡ is_unaltered statement.now }
{
    !statement.value().inactive && !is_apply_path(statement.path())
}

fn are_unaltered(part: &[Statement<'_>]) -> bool
    ensures { result ≡ list_all is_unaltered part.now }
{
    part.iter().all(|statement| is_unaltered(statement))
}

fn is_unaltered_node(node: &Node<'_>) -> bool
    ensures { result ≡ is_unaltered_node node.now }
{
    is_outside(node.path()) && !is_apply_path(node.path()) && are_unaltered(node.below())
}

/// The node of an offer of the configuration's own, where all of it stands in the expansion as it is.
fn unaltered_if<'s, 'a>(offer: &'s Offer<'a>) -> Option<&'s Node<'a>>
    ensures { option_copied result ≡ unaltered_if offer.now.group offer.now.node }
{
    match offer.group() {
        Some(_) => None,
        None => {
            let node = offer.node();
            if is_unaltered_node(node) {
                Some(node)
            } else {
                None
            }
        }
    }
}

/// The configuration's own node of a run without sources, where all of it stands in the expansion as it is.
pub fn unaltered_of<'s, 'a>(run: &'s [Offer<'a>]) -> Option<&'s Node<'a>>
    ensures { option_copied result ≡ unaltered_of run.now }
{
    if run.len() == 1 {
        unaltered_if(&run[0])
    } else {
        None
    }
}

fn own_given(alloc: Global, value: &Value) -> Result<Given, NoMemory>
    ensures { IfOk result (λ given. given ≡ own_given value.now) }
{
    Ok(Given {
        words: value.words.clone()?,
        order: value.order.clone()?,
        group: Word::empty(alloc),
    })
}

/// One statement more, as it stands.
fn push_own<'m>(
    alloc: Global,
    path: &Path,
    value: &Value,
    made: FullMaker<'m>,
) -> Result<FullMaker<'m>, ExpandFault>
    ensures ok { IfOk result (λ maker. maker ≡ made.entry ++ (path.now, own_given value.now) ∷ []) }
    ensures wide { IsErrOf result ExpandFault.TooWide → MAX_EXPANDED < length made.entry + 1 }
{
    let given = own_given(alloc, value)?;
    pushed(made, path.clone()?, given)
}

/// All statements of a part more, as they stand.
fn push_part<'m>(
    alloc: Global,
    part: &[Statement<'_>],
    made: FullMaker<'m>,
) -> Result<FullMaker<'m>, ExpandFault>
    ensures ok { IfOk result (λ maker. maker ≡ made.entry ++ map own_entry part.now) }
    ensures wide { IsErrOf result ExpandFault.TooWide → MAX_EXPANDED < length made.entry + length part.now }
{
    let mut maker = made;
    for statement in part {
        match push_own(alloc, statement.path(), statement.value(), maker) {
            Ok(more) => maker = more,
            Err(fault) => return Err(fault),
        }
    }
    Ok(maker)
}

/// A node and all below it more, as they stand.
pub fn push_unaltered<'m>(
    alloc: Global,
    node: &Node<'_>,
    made: FullMaker<'m>,
) -> Result<FullMaker<'m>, ExpandFault>
    ensures ok { IfOk result (λ maker. maker ≡ made.entry ++ own_entries node.now) }
    ensures wide { IsErrOf result ExpandFault.TooWide → MAX_EXPANDED < length made.entry + length (own_entries node.now) }
{
    match push_own(alloc, node.path(), node.value(), made) {
        Ok(more) => push_part(alloc, node.below(), more),
        Err(fault) => Err(fault),
    }
}
