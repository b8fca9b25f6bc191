//! The names and the values that words are.

ghost use Rattle.std.specs.Prelude.{◌≡◌, IfOk};
ghost use Rattle.curly_grammar.specs.Answer.{IsNameGiven, IsSpelled};

use crate::fault::Why;
use crate::stop::Stop;
use cfg_base::{Kind, NoMemory, Word};
use cfg_tree::is_open_kind;
use cfg_values::{ValueFault, is_pattern, read_value};
use std::alloc::Global;

/// The word of a token's bytes.
pub(crate) fn copied(alloc: Global, bytes: &[u8]) -> Result<Word, NoMemory>
    ensures { IfOk result (λ word. word ≡ bytes.now) }
{
    match Word::of(alloc, bytes) {
        Ok(word) => Ok(word),
        Err(_) => Err(NoMemory),
    }
}

/// The word that the bytes spell.
pub(crate) fn spelling(alloc: Global, kind: Kind, bytes: &[u8]) -> Result<Word, Stop>
    ensures { IsSpelled kind bytes.now result }
{
    match read_value(alloc, kind, bytes) {
        Ok(word) => Ok(word),
        Err(ValueFault::NotOfKind(_)) => Err(Stop::Refused(Why::BadValue)),
        Err(ValueFault::NoMemory) => Err(Stop::NoMemory),
    }
}

/// The name that the bytes are.
pub(crate) fn name(alloc: Global, in_group: bool, kind: Kind, bytes: &[u8]) -> Result<Word, Stop>
    ensures { IsNameGiven in_group kind bytes.now result }
{
    if in_group && is_open_kind(kind) && is_pattern(bytes) {
        return match copied(alloc, bytes) {
            Ok(word) => Ok(word),
            Err(_) => Err(Stop::NoMemory),
        };
    }
    spelling(alloc, kind, bytes)
}
