//! How a reader takes a token.

ghost use Rattle.std.specs.Prelude.{◌≡◌, ◌++◌, ◌∷◌, [], Decides, IfOk, OnOk, if◌then◌else◌};
ghost use Rattle.curly_grammar.specs.Answer.{Answers, turn_of};
ghost use Rattle.curly_grammar.specs.Held.{Follows, HasEntered, HasLeft, HasTaken, HasTakenWord, IsListEnd, IsListed, IsPlacedReader, IsTurned};
ghost use Rattle.curly_grammar.specs.Reading.{quiet, whole};
ghost use Rattle.curly_grammar.specs.Answer.{IsSpelled};
ghost use Rattle.cfg_base.specs.Words.{joined};
ghost use Rattle.cfg_lex.specs.Lexed.{lexed};

use crate::effect::Effect;
use crate::fault::Why;
use crate::level::{Level, is_many, is_open};
use crate::marks::{first_word, further_word, no_marks};
use crate::phase::{Marks, Phase};
use crate::reader::Reader;
use crate::steps::{copy_of, name_step, value, value_step};
use crate::stop::Stop;
use cfg_base::{NoMemory, Path, Value, WordList, Words};
use cfg_lex::TokenKind;
use std::alloc::Global;
use std::mem::replace;

/// Says a statement.
pub(crate) fn say(
    alloc: Global,
    items: &mut Vec<(Path, Value)>,
    marks: Marks,
    path: Path,
    words: WordList,
) -> Result<(), NoMemory>
    ensures { OnOk result (items.new.items ≡ items.old.items ++ (path, record { inactive = marks.inactive; protected = marks.protected; order = []; words = words }) ∷ []) }
{
    let value = Value {
        inactive: marks.inactive,
        protected: marks.protected,
        order: WordList::new(alloc),
        words,
    };
    items.push((path, value))?;
    Ok(())
}

/// Tags a path, where the marks ask for it.
fn tag(tags: &mut Vec<Path>, marks: Marks, path: &Path) -> Result<(), NoMemory>
    ensures { OnOk result (tags.new.items ≡ tags.old.items ++ (if marks.replace then path.now ∷ [] else [])) }
{
    if marks.replace {
        tags.push(path.clone()?)?;
    }
    Ok(())
}

/// A step is whole.
fn complete(
    alloc: Global,
    reader: &mut Reader,
    marks: Marks,
    level: Level,
    words: WordList,
) -> Result<(), NoMemory>
    ensures { OnOk result (IsTurned reader.old (whole marks level words) reader.new) }
{
    tag(&mut reader.tags, marks, &level.path)?;
    say(alloc, &mut reader.items, marks, level.path.clone()?, words)?;
    reader.phase = Phase::After(level);
    Ok(())
}

/// What a word has made is carried out.
fn effect(alloc: Global, reader: &mut Reader, effect: Effect) -> Result<(), NoMemory>
    ensures { OnOk result (IsTurned reader.old (turn_of effect) reader.new) }
{
    match effect {
        Effect::Phase(phase) => {
            reader.phase = phase;
            Ok(())
        }
        Effect::Statement {
            marks,
            level,
            words,
        } => complete(alloc, reader, marks, level, words),
    }
}

/// What a word has made is carried out, or its refusal handed on.
fn follow(alloc: Global, reader: &mut Reader, answer: Result<Effect, Stop>) -> Result<(), Stop>
    ensures { Follows reader.old answer reader.new result }
{
    match answer {
        Ok(made) => Ok(effect(alloc, reader, made)?),
        Err(stop) => Err(stop),
    }
}

/// A further value of a list.
fn list_value(alloc: Global, level: &Level, words: &mut Words, word: &[u8]) -> Result<(), Stop>
    ensures { IsListed level.now words.old word.now words.new result }
{
    match value(alloc, level, word) {
        Ok(word) => Ok(words.push(word)?),
        Err(stop) => Err(stop),
    }
}

/// A word.
fn take_word(alloc: Global, reader: &mut Reader, kind: TokenKind, word: &[u8]) -> Result<(), Stop>
    requires { IsPlacedReader reader.old }
    ensures { HasTakenWord reader.old (lexed kind word.now) reader.new result }
{
    match &mut reader.phase {
        Phase::Between => {
            let answer = first_word(alloc, &reader.here, no_marks(), kind, word);
            follow(alloc, reader, answer)
        }
        Phase::Marked(marks) => {
            let answer = first_word(alloc, &reader.here, *marks, kind, word);
            follow(alloc, reader, answer)
        }
        Phase::Naming { marks, at, head } => {
            let answer = name_step(alloc, at, *marks, head, word);
            follow(alloc, reader, answer)
        }
        Phase::Valuing { marks, level } => {
            let answer = value_step(alloc, *marks, level, word);
            follow(alloc, reader, answer)
        }
        Phase::Listing { level, words, .. } => list_value(alloc, level, words, word),
        Phase::After(level) => {
            let answer = further_word(alloc, level, word);
            follow(alloc, reader, answer)
        }
    }
}

/// `;` ends a statement.
fn take_semicolon(reader: &mut Reader) -> Result<(), Stop>
    ensures { HasTaken reader.old (lexed TokenKind.Semicolon []) reader.new result }
{
    match reader.phase {
        Phase::After(_) => {
            reader.phase = Phase::Between;
            Ok(())
        }
        _ => Err(Stop::Refused(Why::Unexpected)),
    }
}

/// The text of a level begins.
fn enter(reader: &mut Reader, level: Level) -> Result<(), NoMemory>
    ensures { OnOk result (HasEntered reader.old level reader.new) }
{
    let around = replace(&mut reader.here, level);
    reader.outer.push(around)?;
    reader.phase = Phase::Between;
    Ok(())
}

/// `{` begins the text of a level.
fn take_open_brace(reader: &mut Reader) -> Result<(), Stop>
    ensures { HasTaken reader.old (lexed TokenKind.OpenBrace []) reader.new result }
{
    match &reader.phase {
        Phase::After(level) if is_open(&level.place) => {
            let level = copy_of(level)?;
            Ok(enter(reader, level)?)
        }
        _ => Err(Stop::Refused(Why::Unexpected)),
    }
}

/// The text of the level around goes on.
fn leave(reader: &mut Reader) -> Result<(), Stop>
    ensures { HasLeft reader.old reader.new result }
{
    match reader.outer.pop() {
        Some(around) => {
            reader.here = around;
            Ok(())
        }
        None => Err(Stop::Refused(Why::Unexpected)),
    }
}

/// Whether no statement has begun.
pub(crate) fn is_between(phase: &Phase) -> bool
    ensures { Decides result (phase.now ≡ Phase.Between) }
{
    matches!(phase, Phase::Between)
}

/// `}` ends the text of a level.
fn take_close_brace(reader: &mut Reader) -> Result<(), Stop>
    ensures { HasTaken reader.old (lexed TokenKind.CloseBrace []) reader.new result }
{
    if !is_between(&reader.phase) {
        return Err(Stop::Refused(Why::Unexpected));
    }
    leave(reader)
}

/// `[` begins a list of values.
fn take_open_bracket(alloc: Global, reader: &mut Reader) -> Result<(), Stop>
    ensures { HasTaken reader.old (lexed TokenKind.OpenBracket []) reader.new result }
{
    match &reader.phase {
        Phase::Valuing { marks, level } if is_many(&level.place) => {
            let marks = *marks;
            let level = copy_of(level)?;
            let words = Words::new(alloc);
            reader.phase = Phase::Listing {
                marks,
                level,
                words,
            };
            Ok(())
        }
        _ => Err(Stop::Refused(Why::Unexpected)),
    }
}

/// The words of a list, each once.
fn joined(alloc: Global, words: &Words) -> Result<WordList, NoMemory>
    ensures { IfOk result (λ list. list ≡ joined [] words.now) }
{
    WordList::new(alloc).joined(alloc, words.as_slice())
}

/// A list of values is whole.
fn list_step(alloc: Global, marks: Marks, level: &Level, words: &Words) -> Result<Effect, Stop>
    ensures { Answers (IsListEnd marks level.now words.now) Why.Unexpected result }
{
    if words.as_slice().is_empty() {
        return Err(Stop::Refused(Why::Unexpected));
    }
    let words = joined(alloc, words)?;
    let level = copy_of(level)?;
    Ok(Effect::Statement {
        marks,
        level,
        words,
    })
}

/// `]` ends a list of values.
fn take_close_bracket(alloc: Global, reader: &mut Reader) -> Result<(), Stop>
    ensures { HasTaken reader.old (lexed TokenKind.CloseBracket []) reader.new result }
{
    match &reader.phase {
        Phase::Listing {
            marks,
            level,
            words,
        } => {
            let answer = list_step(alloc, *marks, level, words);
            follow(alloc, reader, answer)
        }
        _ => Err(Stop::Refused(Why::Unexpected)),
    }
}

/// A token of this kind, which means this word.
pub(crate) fn take(
    alloc: Global,
    reader: &mut Reader,
    kind: TokenKind,
    word: &[u8],
) -> Result<(), Stop>
    requires { IsPlacedReader reader.old }
    ensures { HasTaken reader.old (lexed kind word.now) reader.new result }
{
    match kind {
        TokenKind::Semicolon => take_semicolon(reader),
        TokenKind::OpenBrace => take_open_brace(reader),
        TokenKind::CloseBrace => take_close_brace(reader),
        TokenKind::OpenBracket => take_open_bracket(alloc, reader),
        TokenKind::CloseBracket => take_close_bracket(alloc, reader),
        TokenKind::Bare | TokenKind::Quoted => take_word(alloc, reader, kind, word),
    }
}
