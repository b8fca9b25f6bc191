//! The words and the names that bytes spell.

ghost use Rattle.std.specs.Prelude.{◌≡◌, List, ℕ, Decides, IfOk, MatchOption, MatchResult};
ghost use Rattle.cfg_schema.specs.Profile.{is_bare, row_of};
ghost use Rattle.cfg_schema.specs.Child.{IsNoHead};
ghost use Rattle.cfg_tree.specs.Typed.{IsNameOf};
ghost use Rattle.cfg_values.specs.Spelling.{IsCanonicalOf, IsSpelling};
ghost use Rattle.json_text.specs.Checking.{HasFault, SpellingFault};
ghost use Rattle.json_text.specs.Said.{IsNameIn};

use crate::fault::ReadFault;
use crate::refusal::bad_value;
use cfg_base::{Kind, NoMemory, Path, Shape, Word};
use cfg_schema::{Child, Place, RowId, child, row};
use cfg_tree::is_open_kind;
use cfg_values::{ValueFault, is_pattern, read_value};
use std::alloc::Global;

/// The word that bytes spell, if they are a spelling of the kind.
pub(crate) fn spelled(alloc: Global, kind: Kind, bytes: &[u8]) -> Result<Option<Word>, NoMemory>
    ensures { IfOk result (λ word. MatchOption word (¬ (IsSpelling kind bytes.now)) (IsCanonicalOf kind bytes.now)) }
{
    match read_value(alloc, kind, bytes) {
        Ok(word) => Ok(Some(word)),
        Err(ValueFault::NotOfKind(_)) => Ok(None),
        Err(ValueFault::NoMemory) => Err(NoMemory),
    }
}

/// Bytes are a spelling of the kind, or they aren't, at a path.
pub(crate) fn check_spelling(
    alloc: Global,
    kind: Kind,
    path: &Path,
    bytes: &[u8],
) -> Result<(), ReadFault>
    ensures { MatchResult result (λ _. (word : List ℕ) × IsCanonicalOf kind bytes.now word)
        (HasFault (SpellingFault kind path.now bytes.now)) }
{
    match spelled(alloc, kind, bytes) {
        Ok(Some(_)) => Ok(()),
        Ok(None) => Err(bad_value(path)),
        Err(_) => Err(ReadFault::NoMemory),
    }
}

/// The name that bytes are, if they are one of the kind.
fn named(alloc: Global, in_group: bool, kind: Kind, bytes: &[u8]) -> Result<Option<Word>, NoMemory>
    ensures { IfOk result (λ name. MatchOption name ((other : List ℕ) → ¬ (IsNameOf in_group kind bytes.now other))
        (IsNameOf in_group kind bytes.now)) }
{
    if in_group && is_open_kind(kind) && is_pattern(bytes) {
        return match Word::of(alloc, bytes) {
            Ok(word) => Ok(Some(word)),
            Err(_) => Err(NoMemory),
        };
    }
    spelled(alloc, kind, bytes)
}

/// Whether bytes are no head of a level that has bare names.
fn is_no_head(here: &Place, bytes: &[u8]) -> bool
    ensures { Decides result (IsNoHead here.now.row here.now.in_group bytes.now) }
{
    match child(here.row, here.in_group, bytes, b"") {
        Child::Row(id) => matches!(row(id).shape, Shape::Bare),
        Child::BadName(_) => false,
        Child::Unknown => true,
    }
}

/// The bare name that bytes are below a level, if they are one of the kind and no head.
fn bare_name(
    alloc: Global,
    here: &Place,
    kind: Kind,
    bytes: &[u8],
) -> Result<Option<Word>, NoMemory>
    ensures { IfOk result (λ name. MatchOption name
        ((other : List ℕ) → ¬ (IsNameOf here.now.in_group kind bytes.now other × IsNoHead here.now.row here.now.in_group bytes.now))
        (λ word. IsNameOf here.now.in_group kind bytes.now word × IsNoHead here.now.row here.now.in_group bytes.now)) }
{
    if !is_no_head(here, bytes) {
        return Ok(None);
    }
    named(alloc, here.in_group, kind, bytes)
}

/// Whether a row of this shape is a bare name.
fn is_bare(shape: Shape) -> bool
    ensures { result ≡ is_bare shape }
{
    matches!(shape, Shape::Bare)
}

/// The name that bytes are below a level, if they are one of a row's.
pub(crate) fn name_in(
    alloc: Global,
    here: &Place,
    id: RowId,
    bytes: &[u8],
) -> Result<Option<Word>, NoMemory>
    ensures { IfOk result (λ name. MatchOption name ((other : List ℕ) → ¬ (IsNameIn here.now id (row_of id).shape bytes.now other))
        (IsNameIn here.now id (row_of id).shape bytes.now)) }
{
    let row = row(id);
    if is_bare(row.shape) {
        return bare_name(alloc, here, row.name_kind, bytes);
    }
    named(alloc, here.in_group, row.name_kind, bytes)
}
