//! What a word makes of a step.

ghost use Rattle.std.specs.Prelude.{◌≡◌, [], ◌∷◌, IfOk};
ghost use Rattle.cfg_schema.specs.Profile.{row_of};
ghost use Rattle.cfg_tree.specs.Tree.{step_of};
ghost use Rattle.curly_grammar.specs.Reading.{BeginsAs, BeginsStep, IsNamed, IsValued, NamesAs, NamesStep, below, child_at, whole};
ghost use Rattle.curly_grammar.specs.Answer.{Answers, IsPlaced, IsSpelled};
ghost use Rattle.curly_grammar.specs.Fault.{why_no_step};
ghost use Rattle.curly_grammar.specs.declared.fault.Why.TheVariants.{BadValue};

use crate::effect::Effect;
use crate::fault::Why;
use crate::level::Level;
use crate::names::{copied, name, spelling};
use crate::phase::{Marks, Phase};
use crate::stop::Stop;
use cfg_base::{NoMemory, Shape, Step, Word, WordList};
use cfg_schema::{Child, Row, RowId, child, row};
use std::alloc::Global;
use std::slice::from_ref;

/// The statement of a row and a step below a level.
fn below(at: &Level, row: RowId, step: Step) -> Result<Level, NoMemory>
    requires { IsPlaced at.now }
    ensures { IfOk result (λ level. level ≡ below at.now row step) }
{
    match at.path.push(step) {
        Ok(path) => Ok(Level {
            path,
            place: at.place.entered(row),
        }),
        Err(_) => Err(NoMemory),
    }
}

/// The statement whose step is a head alone.
fn below_head(alloc: Global, at: &Level, row: RowId, word: &[u8]) -> Result<Level, NoMemory>
    requires { IsPlaced at.now }
    ensures { IfOk result (λ level. level ≡ below at.now row (step_of word.now [])) }
{
    let head = copied(alloc, word)?;
    let name = copied(alloc, b"")?;
    below(at, row, Step { head, name })
}

/// A statement without words.
fn wordless(alloc: Global, marks: Marks, level: Level) -> Effect
    ensures { result ≡ Effect.Statement marks level [] }
{
    Effect::Statement {
        marks,
        level,
        words: WordList::new(alloc),
    }
}

/// A level with the same path and place.
pub(crate) fn copy_of(level: &Level) -> Result<Level, NoMemory>
    ensures { IfOk result (λ copy. copy ≡ level.now) }
{
    Ok(Level {
        path: level.path.clone()?,
        place: level.place,
    })
}

/// A head stands at a level, and its name has to come.
fn naming(alloc: Global, at: &Level, marks: Marks, word: &[u8]) -> Result<Effect, NoMemory>
    ensures { IfOk result (λ effect. effect ≡ Effect.Phase (Phase.Naming marks at.now word.now)) }
{
    let at = copy_of(at)?;
    let head = copied(alloc, word)?;
    Ok(Effect::Phase(Phase::Naming { marks, at, head }))
}

/// A name after a head, or a bare name.
fn named(
    alloc: Global,
    at: &Level,
    marks: Marks,
    row: &Row,
    head: Word,
    bytes: &[u8],
) -> Result<Effect, Stop>
    requires { IsPlaced at.now }
    ensures { Answers (IsNamed at.now.place.in_group row.now.name_kind bytes.now marks (λ name. below at.now row.now.id (step_of head name))) BadValue result }
{
    match name(alloc, at.place.in_group, row.name_kind, bytes) {
        Ok(name) => {
            let level = below(at, row.id, Step { head, name })?;
            Ok(wordless(alloc, marks, level))
        }
        Err(stop) => Err(stop),
    }
}

/// The first word of a step of a row.
fn begin_row(
    alloc: Global,
    at: &Level,
    marks: Marks,
    row: &Row,
    word: &[u8],
) -> Result<Effect, Stop>
    requires { IsPlaced at.now }
    ensures { Answers (BeginsAs row.now.shape row.now.name_kind row.now.id at.now marks word.now) BadValue result }
{
    match row.shape {
        Shape::Container | Shape::Flag => {
            let level = below_head(alloc, at, row.id, word)?;
            Ok(wordless(alloc, marks, level))
        }
        Shape::Bare => named(alloc, at, marks, row, copied(alloc, b"")?, word),
        Shape::Keyed | Shape::Fixed => Ok(naming(alloc, at, marks, word)?),
        Shape::Leaf | Shape::Many => {
            let level = below_head(alloc, at, row.id, word)?;
            Ok(Effect::Phase(Phase::Valuing { marks, level }))
        }
    }
}

/// The first word of a step.
pub(crate) fn begin_step(
    alloc: Global,
    at: &Level,
    marks: Marks,
    word: &[u8],
) -> Result<Effect, Stop>
    requires { IsPlaced at.now }
    ensures { Answers (BeginsStep (child_at at.now word.now []) at.now marks word.now) (why_no_step (child_at at.now word.now [])) result }
{
    match child(at.place.row, at.place.in_group, word, b"") {
        Child::Unknown => Err(Stop::Refused(Why::Unknown)),
        Child::BadName(_) => Ok(naming(alloc, at, marks, word)?),
        Child::Row(id) => begin_row(alloc, at, marks, &row(id), word),
    }
}

/// The name after the head of a row.
fn name_row(
    alloc: Global,
    at: &Level,
    marks: Marks,
    row: &Row,
    head: &Word,
    word: &[u8],
) -> Result<Effect, Stop>
    requires { IsPlaced at.now }
    ensures { Answers (NamesAs row.now.shape row.now.name_kind row.now.id at.now marks head.now word.now) BadValue result }
{
    match row.shape {
        Shape::Keyed => named(alloc, at, marks, row, head.clone()?, word),
        Shape::Fixed => {
            let head = head.clone()?;
            let name = copied(alloc, word)?;
            let level = below(at, row.id, Step { head, name })?;
            Ok(wordless(alloc, marks, level))
        }
        Shape::Container | Shape::Bare | Shape::Leaf | Shape::Flag | Shape::Many => {
            Err(Stop::Refused(Why::BadValue))
        }
    }
}

/// The name after a head.
pub(crate) fn name_step(
    alloc: Global,
    at: &Level,
    marks: Marks,
    head: &Word,
    word: &[u8],
) -> Result<Effect, Stop>
    requires { IsPlaced at.now }
    ensures { Answers (NamesStep (child_at at.now head.now word.now) at.now marks head.now word.now) BadValue result }
{
    match child(at.place.row, at.place.in_group, head.as_bytes(), word) {
        Child::Row(id) => name_row(alloc, at, marks, &row(id), head, word),
        Child::BadName(_) | Child::Unknown => Err(Stop::Refused(Why::BadValue)),
    }
}

/// A value of a statement.
pub(crate) fn value(alloc: Global, level: &Level, word: &[u8]) -> Result<Word, Stop>
    ensures { IsSpelled (row_of level.now.place.row).value_kind word.now result }
{
    spelling(alloc, row(level.place.row).value_kind, word)
}

/// The one value of a statement.
pub(crate) fn value_step(
    alloc: Global,
    marks: Marks,
    level: &Level,
    word: &[u8],
) -> Result<Effect, Stop>
    ensures { Answers (IsValued level.now word.now (λ word. whole marks level.now (word ∷ []))) BadValue result }
{
    match value(alloc, level, word) {
        Ok(word) => {
            let level = copy_of(level)?;
            let words = WordList::of(alloc, from_ref(&word))?;
            Ok(Effect::Statement {
                marks,
                level,
                words,
            })
        }
        Err(stop) => Err(stop),
    }
}
