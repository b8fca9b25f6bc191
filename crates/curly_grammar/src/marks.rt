//! The marks of statements.

ghost use Rattle.std.specs.Prelude.{◌≡◌, ◌||◌, Decides, IfOk};
ghost use Rattle.cfg_lex.specs.Lexed.{is_bare_word, lexed};
ghost use Rattle.cfg_lex.specs.Mark.{mark_word};
ghost use Rattle.curly_grammar.specs.Answer.{Answers, IsPlaced};
ghost use Rattle.curly_grammar.specs.Fault.{why_no_more, why_no_statement};
ghost use Rattle.curly_grammar.specs.Grammar.{is_mark, is_open};
ghost use Rattle.curly_grammar.specs.Reading.{HasRows, TakesAfter, TakesFirst, no_marks, with_mark};

use crate::effect::Effect;
use crate::fault::Why;
use crate::level::{Level, is_open};
use crate::phase::{Marks, Phase};
use crate::steps::begin_step;
use crate::stop::Stop;
use cfg_base::NoMemory;
use cfg_lex::{Mark, TokenKind};
use cfg_schema::rows_below;
use std::alloc::Global;

/// No mark.
pub(crate) fn no_marks() -> Marks
    ensures { result ≡ no_marks }
{
    Marks {
        inactive: false,
        protected: false,
        replace: false,
    }
}

/// Whether a token is this mark.
fn is_this_mark(kind: TokenKind, word: &[u8], mark: Mark) -> bool
    ensures { result ≡ is_bare_word (mark_word mark) (lexed kind word.now) }
{
    kind.is_bare() && mark.word() == word
}

/// The mark that a token is, if it is one.
fn mark_of(kind: TokenKind, word: &[u8]) -> Marks
    ensures { result ≡ with_mark no_marks (lexed kind word.now) }
{
    Marks {
        inactive: is_this_mark(kind, word, Mark::Inactive),
        protected: is_this_mark(kind, word, Mark::Protect),
        replace: is_this_mark(kind, word, Mark::Replace),
    }
}

fn is_any(marks: Marks) -> bool
    ensures { result ≡ (marks.inactive || (marks.protected || marks.replace)) }
{
    marks.inactive || marks.protected || marks.replace
}

/// The marks of both.
fn both(one: Marks, two: Marks) -> Marks
    ensures { result ≡ record { inactive = one.inactive || two.inactive; protected = one.protected || two.protected; replace = one.replace || two.replace } }
{
    Marks {
        inactive: one.inactive || two.inactive,
        protected: one.protected || two.protected,
        replace: one.replace || two.replace,
    }
}

/// Whether a level can have children.
fn has_rows(alloc: Global, here: &Level) -> Result<bool, NoMemory>
    ensures { IfOk result (λ some. Decides some (HasRows here.now)) }
{
    let rows = rows_below(alloc, here.place.row, here.place.in_group)?;
    Ok(!rows.is_empty())
}

/// A word where a statement begins, after its marks.
pub(crate) fn first_word(
    alloc: Global,
    here: &Level,
    marks: Marks,
    kind: TokenKind,
    word: &[u8],
) -> Result<Effect, Stop>
    requires { IsPlaced here.now }
    ensures { Answers (TakesFirst (is_mark (lexed kind word.now)) here.now marks (lexed kind word.now)) (why_no_statement (is_mark (lexed kind word.now)) here.now (lexed kind word.now)) result }
{
    let mark = mark_of(kind, word);
    if !is_any(mark) {
        return begin_step(alloc, here, marks, word);
    }
    if !has_rows(alloc, here)? {
        return Err(Stop::Refused(Why::Unexpected));
    }
    Ok(Effect::Phase(Phase::Marked(both(marks, mark))))
}

/// A word after a whole step.
pub(crate) fn further_word(alloc: Global, level: &Level, word: &[u8]) -> Result<Effect, Stop>
    requires { IsPlaced level.now }
    ensures { Answers (TakesAfter (is_open level.now) level.now word.now) (why_no_more (is_open level.now) level.now word.now) result }
{
    if !is_open(&level.place) {
        return Err(Stop::Refused(Why::Unexpected));
    }
    begin_step(alloc, level, no_marks(), word)
}
