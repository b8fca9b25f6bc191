//! What the lines of a text ask for.

ghost use Rattle.std.specs.Prelude.{◌≡◌, ◌<◌, ◌∷◌, ◌==◌, length, None, Some, Ok, IfOk, IfErr};
ghost use Rattle.std.specs.List.{All};
ghost use Rattle.cfg_lex.specs.Tokens.{IsCut, IsPlaced};
ghost use Rattle.set_text.specs.declared.fit.Fit.TheVariants.{Around, More, Whole};
ghost use Rattle.commands.specs.Verb.{op_of};
ghost use Rattle.set_text.specs.Fit.{FitsForms};
ghost use Rattle.set_text.specs.Stop.{Says};

use crate::fit::{Fit, fit_of, words_of};
use crate::stop::{Stop, capped, stop_of};
use cfg_base::Words;
use cfg_lex::{LexFault, Token, cut_text};
use commands::{Mover, Op, Verb};
use std::alloc::Global;

/// What a line says whose tokens begin a line of a form and are none.
fn read_more(line: &[u8], tokens: &[Token], fault: Option<LexFault>) -> Result<Option<Op>, Stop>
    requires cut { IsCut line.now tokens.now fault }
    requires more { FitsForms line.now tokens.now More }
    ensures { Says line.now result }
{
    match fault {
        Some(fault) => Err(stop_of(fault)),
        None => {
            if tokens.is_empty() {
                Ok(None)
            } else {
                Err(Stop::At(capped(line.len())))
            }
        }
    }
}

/// What a line says whose tokens are a line of a list of words.
fn read_whole(
    alloc: Global,
    line: &[u8],
    tokens: &[Token],
    fault: Option<LexFault>,
    verb: Verb,
) -> Result<Option<Op>, Stop>
    requires cut { IsCut line.now tokens.now fault }
    requires placed { All (IsPlaced line.now) tokens.now }
    requires whole { FitsForms line.now tokens.now (Whole verb) }
    ensures { Says line.now result }
{
    match fault {
        Some(fault) => Err(stop_of(fault)),
        None => {
            let words = words_of(alloc, line, &tokens[1..])?;
            Ok(Some(verb.op_of(words)))
        }
    }
}

/// What a line says whose tokens are a line with the mark of a kind of change at a place.
fn read_around(
    alloc: Global,
    line: &[u8],
    tokens: &[Token],
    fault: Option<LexFault>,
    mover: Mover,
    at: usize,
) -> Result<Option<Op>, Stop>
    requires cut { IsCut line.now tokens.now fault }
    requires placed { All (IsPlaced line.now) tokens.now }
    requires around { FitsForms line.now tokens.now (Around mover at) }
    ensures { Says line.now result }
{
    match fault {
        Some(fault) => Err(stop_of(fault)),
        None => {
            let front = words_of(alloc, line, &tokens[1..at])?;
            let behind = words_of(alloc, line, &tokens[at + 1..])?;
            Ok(Some(mover.op_of(front, behind)))
        }
    }
}

/// What a line says.
pub(crate) fn read_line(alloc: Global, line: &[u8]) -> Result<Option<Op>, Stop>
    ensures { Says line.now result }
{
    let cut = cut_text(alloc, line)?;
    let tokens = cut.tokens.as_slice();
    match fit_of(alloc, line, tokens)? {
        Fit::Stops(count) => Err(Stop::At(capped(tokens[count].start))),
        Fit::More => read_more(line, tokens, cut.fault),
        Fit::Whole(verb) => read_whole(alloc, line, tokens, cut.fault, verb),
        Fit::Around(mover, at) => read_around(alloc, line, tokens, cut.fault, mover, at),
    }
}
