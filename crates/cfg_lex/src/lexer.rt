//! The tokens of a text.

ghost use Rattle.std.specs.Prelude.{◌≡◌, ◌≢◌, IfOk, IfErr};
ghost use Rattle.std.specs.List.{All};
ghost use Rattle.cfg_lex.specs.Tokens.{IsCut, IsLeftmostFault, IsPlaced, IsTokens};
ghost use Rattle.cfg_lex.specs.declared.fault.LexFault.TheVariants.{NoMemory};

use crate::fault::{LexFault, fault_at};
use crate::front::{Front, front_of};
use crate::token::{Cut, Token, Tokens};
use std::alloc::Global;

/// The tokens of a text up to its leftmost fault, and that fault; all of them where it has none.
pub fn cut_text(alloc: Global, text: &[u8]) -> Result<Cut, cfg_base::NoMemory>
    ensures cut { IfOk result (λ cut. IsCut text.now cut.tokens cut.fault) }
    ensures placed { IfOk result (λ cut. All (IsPlaced text.now) cut.tokens) }
{
    let mut tokens = Vec::new(alloc);
    let mut place = 0;
    while place < text.len() {
        match front_of(&text[place..]) {
            Front::Gap(count) => place += count,
            Front::Token(kind, count) => {
                let end = place + count;
                tokens.push(Token {
                    kind,
                    start: place,
                    end,
                })?;
                place = end;
            }
            Front::Fault(cause, offset) => {
                return Ok(Cut {
                    tokens: Tokens::of(tokens),
                    fault: Some(fault_at(cause, place + offset)),
                });
            }
        }
    }
    Ok(Cut {
        tokens: Tokens::of(tokens),
        fault: None,
    })
}

/// The tokens of a text, or its leftmost fault.
pub fn tokens(alloc: Global, text: &[u8]) -> Result<Tokens, LexFault>
    ensures tokens { IfOk result (λ tokens. IsTokens text.now tokens) }
    ensures placed { IfOk result (λ tokens. All (IsPlaced text.now) tokens) }
    ensures fault { IfErr result (λ fault. fault ≢ NoMemory → IsLeftmostFault text.now fault) }
{
    let Cut { tokens, fault } = cut_text(alloc, text)?;
    match fault {
        None => Ok(tokens),
        Some(fault) => Err(fault),
    }
}
