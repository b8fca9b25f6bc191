//! The rule of the text's length.

ghost use Rattle.std.specs.Prelude.{◌≡◌, ◌<◌, [], nat_lt, length, MatchOption};
ghost use Rattle.curly_print.specs.Printed.{printed};
ghost use Rattle.commit_check.specs.declared.rule.TheConstants.{MAX_TEXT};
ghost use Rattle.commit_check.specs.Least.{Nowhere, IsLeast};
ghost use Rattle.commit_check.specs.Rules.{AtTop};

use crate::rule::MAX_TEXT;
use cfg_base::Path;
use cfg_tree::Tree;
use curly_print::{is_surely_within, text_len};
use std::alloc::Global;

/// Whether the canonical text has more bytes than it may have.
fn is_too_long(tree: &Tree) -> bool
    ensures { result ≡ nat_lt MAX_TEXT (length (printed tree.now [])) }
{
    !is_surely_within(tree, MAX_TEXT) && text_len(tree) > MAX_TEXT
}

/// The top, where the canonical text has more bytes than it may have.
#[tactic(auto, using(crate::proofs::LeastLemmas::top_least, crate::proofs::LeastLemmas::nowhere_top))]
pub fn least_too_long(alloc: Global, tree: &Tree) -> Option<Path>
    ensures { MatchOption result (Nowhere (AtTop (MAX_TEXT < length (printed tree.now [])))) (IsLeast (AtTop (MAX_TEXT < length (printed tree.now [])))) }
{
    if is_too_long(tree) {
        Some(Path::top(alloc))
    } else {
        None
    }
}
