//! What a text says.

ghost use Rattle.std.specs.Prelude.{◌≡◌, ◌≢◌, ◌≤◌, ◌<◌, ◌++◌, map, slice_get, Decides, IfOk, IfErr, OnOk};
ghost use Rattle.std.specs.FinMap as finite;
ghost use Rattle.std.specs.List.{All};
ghost use Rattle.cfg_lex.specs.Lexed.{lexed_in};
ghost use Rattle.cfg_lex.specs.Tokens.{IsPlaced, IsTokens, capped};
ghost use Rattle.cfg_tree.specs.Statements.{size_of};
ghost use Rattle.cfg_tree.specs.Stated.{AreSaid, different, paths_of};
ghost use Rattle.cfg_tree.specs.declared.limit.TheConstants.{MAX_STATEMENTS};
ghost use Rattle.curly_grammar.specs.Fault.{IsLeftmostFault, byte_of, of_lexical, of_reason, paths_met};
ghost use Rattle.curly_grammar.specs.Grammar.{Reads};
ghost use Rattle.curly_grammar.specs.Held.{HasTaken, IsPlacedReader, run_in, state_in};
ghost use Rattle.curly_grammar.specs.Parsed.{IsRead, IsRefusal, Makes, Parses};
ghost use Rattle.curly_grammar.specs.Reading.{IsFinal, begun_paths, silent, start};

use crate::end::End;
use crate::fault::{TextFault, Why};
use crate::marked::{Marked, Paths};
use crate::phase::Phase;
use crate::reader::Reader;
use crate::stop::Stop;
use crate::taking::{is_between, say, take};
use cfg_base::{NoMemory, Path, Value, WordList};
use cfg_lex::{LexFault, Token, tokens};
use cfg_tree::{Tree, statement_past_limit};
use std::alloc::Global;

/// A token of the text.
fn take_token(alloc: Global, text: &[u8], token: Token, reader: &mut Reader) -> Result<(), Stop>
    requires token { IsPlaced text.now token }
    requires placed { IsPlacedReader reader.old }
    ensures { HasTaken reader.old (lexed_in text.now token) reader.new result }
{
    match token.word(alloc, text) {
        Ok(word) => take(alloc, reader, token.kind, &word),
        Err(_) => Err(Stop::NoMemory),
    }
}

/// The tokens of the text, up to one that isn't taken.
fn read(
    alloc: Global,
    text: &[u8],
    tokens: &[Token],
    reader: &mut Reader,
) -> Result<Option<End>, NoMemory>
    requires tokens { All (IsPlaced text.now) tokens.now }
    requires start { run_in reader.old ≡ silent start }
    ensures { IfOk result (λ end. IsRead (map (lexed_in text.now) tokens.now) end (run_in reader.new)) }
{
    for (at, token) in tokens.iter().enumerate() {
        match take_token(alloc, text, *token, reader) {
            Ok(()) => {}
            Err(Stop::Refused(why)) => return Ok(Some(End { at, why })),
            Err(Stop::NoMemory) => return Err(NoMemory),
        }
    }
    Ok(None)
}

/// Whether a text may end here.
fn is_final(reader: &Reader) -> bool
    ensures { Decides result (IsFinal (state_in reader.now)) }
{
    is_between(&reader.phase) && reader.outer.is_empty()
}

/// The statement that has begun is said too, with no words yet.
fn say_begun(alloc: Global, items: &mut Vec<(Path, Value)>, phase: Phase) -> Result<(), NoMemory>
    ensures { OnOk result (paths_of items.new.items ≡ paths_of items.old.items ++ begun_paths phase) }
{
    match phase {
        Phase::Valuing { marks, level } => {
            say(alloc, items, marks, level.path, WordList::new(alloc))
        }
        Phase::Listing { marks, level, .. } => {
            say(alloc, items, marks, level.path, WordList::new(alloc))
        }
        Phase::Between | Phase::Marked(_) | Phase::Naming { .. } | Phase::After(_) => Ok(()),
    }
}

/// Whether these are more statements than a tree has.
fn are_many(alloc: Global, items: &[(Path, Value)]) -> Result<bool, NoMemory>
    ensures { IfOk result (λ many. Decides many (MAX_STATEMENTS < different (paths_of items.now))) }
{
    let past = statement_past_limit(alloc, items)?;
    Ok(past.is_some())
}

/// Whether more statements than a tree has are met.
fn meets_many(alloc: Global, reader: Reader) -> Result<bool, NoMemory>
    ensures { IfOk result (λ many. Decides many (MAX_STATEMENTS < different (paths_met (run_in reader)))) }
{
    let Reader {
        mut items,
        phase,
        ..
    } = reader;
    say_begun(alloc, &mut items, phase)?;
    are_many(alloc, &items)
}

/// A place in 32 bits.
fn capped(place: usize) -> u32
    ensures { result ≡ capped place }
{
    u32::try_from(place).unwrap_or(u32::MAX)
}

fn of_reason(why: Why, byte: usize) -> TextFault
    ensures { result ≡ of_reason why (capped byte) }
{
    let byte = capped(byte);
    match why {
        Why::Unexpected => TextFault::Unexpected(byte),
        Why::Unknown => TextFault::Unknown(byte),
        Why::BadValue => TextFault::BadValue(byte),
    }
}

fn of_lexical(fault: LexFault) -> TextFault
    ensures { result ≡ of_lexical fault }
{
    match fault {
        LexFault::BadByte(byte) => TextFault::BadByte(byte),
        LexFault::OpenComment(byte) => TextFault::OpenComment(byte),
        LexFault::OpenQuote(byte) => TextFault::OpenQuote(byte),
        LexFault::LongWord(byte) => TextFault::LongWord(byte),
        LexFault::NoMemory => TextFault::NoMemory,
    }
}

/// The fault of a text that isn't read, by the statements that are met before it.
fn refusal(alloc: Global, reader: Reader, why: Why, byte: usize) -> TextFault
    ensures { IsRefusal (paths_met (run_in reader)) why byte result }
{
    match meets_many(alloc, reader) {
        Ok(false) => of_reason(why, byte),
        Ok(true) => TextFault::TooMany,
        Err(_) => TextFault::NoMemory,
    }
}

/// What the statements of a whole text make, beside an older tree.
fn made(alloc: Global, older: &Tree, reader: Reader) -> Result<Marked, TextFault>
    requires { AreSaid finite.empty reader.items.items }
    ensures { Makes (run_in reader) result }
{
    let Reader { items, tags, .. } = reader;
    match are_many(alloc, &items) {
        Ok(false) => match Tree::of_statements(alloc, older, items) {
            Ok(tree) => Ok(Marked {
                tree,
                replaced: Paths::of(tags),
            }),
            Err(_) => Err(TextFault::NoMemory),
        },
        Ok(true) => Err(TextFault::TooMany),
        Err(_) => Err(TextFault::NoMemory),
    }
}

/// The byte at which a token begins, or the end of the text.
fn byte_of(text: &[u8], tokens: &[Token], at: usize) -> usize
    ensures { result ≡ byte_of text.now (slice_get tokens.now at) }
{
    match tokens.get(at) {
        Some(token) => token.start,
        None => text.len(),
    }
}

/// What the tokens of a text say that were read, all of them or up to one.
fn outcome(
    alloc: Global,
    older: &Tree,
    text: &[u8],
    tokens: &[Token],
    reader: Reader,
    end: Option<End>,
) -> Result<Marked, TextFault>
    requires tokens { IsTokens text.now tokens.now }
    requires read { IsRead (map (lexed_in text.now) tokens.now) end (run_in reader) }
    ensures { Parses text.now result }
{
    match end {
        Some(end) => {
            let byte = byte_of(text, tokens, end.at);
            Err(refusal(alloc, reader, end.why, byte))
        }
        None => {
            if is_final(&reader) {
                return made(alloc, older, reader);
            }
            Err(refusal(alloc, reader, Why::Unexpected, text.len()))
        }
    }
}

/// What the tokens of a text say.
fn parse_tokens(
    alloc: Global,
    older: &Tree,
    text: &[u8],
    tokens: &[Token],
) -> Result<Marked, TextFault>
    requires tokens { IsTokens text.now tokens.now }
    requires placed { All (IsPlaced text.now) tokens.now }
    ensures { Parses text.now result }
{
    let mut reader = Reader::new(alloc);
    match read(alloc, text, tokens, &mut reader) {
        Ok(end) => outcome(alloc, older, text, tokens, reader, end),
        Err(_) => Err(TextFault::NoMemory),
    }
}

/// What a text says, or its leftmost fault.
pub fn parse(alloc: Global, text: &[u8]) -> Result<Marked, TextFault>
    ensures read { IfOk result (λ marked. Reads text.now marked.tree marked.replaced) }
    ensures few { IfOk result (λ marked. size_of marked.tree ≤ MAX_STATEMENTS) }
    ensures fault { IfErr result (λ fault. fault ≢ TextFault.NoMemory → IsLeftmostFault text.now fault) }
{
    parse_beside(alloc, &Tree::empty(alloc), text)
}

/// The same. Statements that the older tree has too are shared with it.
pub fn parse_beside(alloc: Global, older: &Tree, text: &[u8]) -> Result<Marked, TextFault>
    ensures read { IfOk result (λ marked. Reads text.now marked.tree marked.replaced) }
    ensures few { IfOk result (λ marked. size_of marked.tree ≤ MAX_STATEMENTS) }
    ensures fault { IfErr result (λ fault. fault ≢ TextFault.NoMemory → IsLeftmostFault text.now fault) }
{
    match tokens(alloc, text) {
        Ok(tokens) => parse_tokens(alloc, older, text, tokens.as_slice()),
        Err(fault) => Err(of_lexical(fault)),
    }
}
