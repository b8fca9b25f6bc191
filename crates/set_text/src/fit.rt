//! How the tokens of a line fit the forms.

ghost use Rattle.std.specs.Prelude.{◌≡◌, IfOk};
ghost use Rattle.std.specs.List.{All};
ghost use Rattle.cfg_lex.specs.Lexed.{is_bare_word, is_word_kind, lexed_in};
ghost use Rattle.cfg_lex.specs.Tokens.{IsPlaced, word_in};
ghost use Rattle.commands.specs.Mover as moves;
ghost use Rattle.set_text.specs.declared.form.Form.TheVariants.{TwoLists};
ghost use Rattle.set_text.specs.Form.{is_name, mover_of, parts_in, words_among};
ghost use Rattle.set_text.specs.Fit.{AreNames, FitsForms, FitsBehind, FitsOneList, form_at};

use crate::form::{Form, form_of};
use crate::phase::phase_of;
use cfg_base::{NoMemory, Word, Words};
use cfg_lex::Token;
use commands::{Mover, Verb};
use std::alloc::Global;

/// How far the tokens of a line fit a form: the first so many begin a line, and the next one doesn't fit; all of
/// them begin one, and more would have to stand after them; they are one of a list of words; or they are one with the
/// mark of that kind at that place.
#[derive(Clone, Copy, Debug, PartialEq, Eq)]
pub(crate) enum Fit {
    Stops(usize),
    More,
    Whole(Verb),
    Around(Mover, usize),
}

/// The form that a token begins.
fn form_at(alloc: Global, line: &[u8], token: Token) -> Result<Option<Form>, NoMemory>
    requires { IsPlaced line.now token }
    ensures { IfOk result (λ form. form ≡ form_at (is_word_kind token.kind) (word_in line.now token)) }
{
    if !token.kind.is_word() {
        return Ok(None);
    }
    let word = token.word(alloc, line)?;
    Ok(form_of(&word))
}

fn fit_one_list(verb: Verb, brackets: bool, rest: &[Token]) -> Fit
    ensures { FitsOneList verb brackets rest.now result }
{
    match phase_of(brackets, rest) {
        Err(place) => Fit::Stops(place + 1),
        Ok(phase) => {
            if phase.ends() {
                Fit::Whole(verb)
            } else {
                Fit::More
            }
        }
    }
}

/// Whether a token is the mark of a kind of change.
fn is_mark(alloc: Global, line: &[u8], mover: Mover, token: Token) -> Result<bool, NoMemory>
    requires { IsPlaced line.now token }
    ensures { IfOk result (λ is. is ≡ is_bare_word (moves.mark mover) (lexed_in line.now token)) }
{
    if !token.kind.is_bare() {
        return Ok(false);
    }
    let word = token.word(alloc, line)?;
    Ok(&*word == mover.mark())
}

/// The kind of change whose mark a token is, of two kinds.
fn mover_of(
    alloc: Global,
    line: &[u8],
    one: Mover,
    other: Mover,
    token: Token,
) -> Result<Option<Mover>, NoMemory>
    requires { IsPlaced line.now token }
    ensures { IfOk result (λ mover. mover ≡ mover_of one other (lexed_in line.now token)) }
{
    if is_mark(alloc, line, one, token)? {
        return Ok(Some(one));
    }
    if is_mark(alloc, line, other, token)? {
        return Ok(Some(other));
    }
    Ok(None)
}

/// Whether a token is a word and no mark of two kinds.
fn is_name(
    alloc: Global,
    line: &[u8],
    one: Mover,
    other: Mover,
    token: Token,
) -> Result<bool, NoMemory>
    requires { IsPlaced line.now token }
    ensures { IfOk result (λ is. is ≡ is_name one other (lexed_in line.now token)) }
{
    if !token.kind.is_word() {
        return Ok(false);
    }
    Ok(mover_of(alloc, line, one, other, token)?.is_none())
}

/// How many tokens at the front are words and no marks of two kinds.
fn names_in(
    alloc: Global,
    line: &[u8],
    one: Mover,
    other: Mover,
    tokens: &[Token],
) -> Result<usize, NoMemory>
    requires { All (IsPlaced line.now) tokens.now }
    ensures { IfOk result (λ count. AreNames line.now one other tokens.now count) }
{
    for (place, token) in tokens.iter().enumerate() {
        if !is_name(alloc, line, one, other, *token)? {
            return Ok(place);
        }
    }
    Ok(tokens.len())
}

fn fit_two_lists(
    alloc: Global,
    line: &[u8],
    one: Mover,
    other: Mover,
    rest: &[Token],
) -> Result<Fit, NoMemory>
    requires { All (IsPlaced line.now) rest.now }
    ensures { IfOk result (λ fit. FitsBehind line.now (TwoLists one other) rest.now fit) }
{
    let count = names_in(alloc, line, one, other, rest)?;
    if count == rest.len() {
        return Ok(Fit::More);
    }
    if count == 0 {
        return Ok(Fit::Stops(1));
    }
    let mover = match mover_of(alloc, line, one, other, rest[count])? {
        None => return Ok(Fit::Stops(count + 1)),
        Some(mover) => mover,
    };
    match phase_of(false, &rest[count + 1..]) {
        Err(place) => Ok(Fit::Stops(count + 1 + place + 1)),
        Ok(phase) => {
            if phase.ends() {
                Ok(Fit::Around(mover, count + 1))
            } else {
                Ok(Fit::More)
            }
        }
    }
}

fn fit_behind(alloc: Global, line: &[u8], form: Form, rest: &[Token]) -> Result<Fit, NoMemory>
    requires { All (IsPlaced line.now) rest.now }
    ensures { IfOk result (λ fit. FitsBehind line.now form rest.now fit) }
{
    match form {
        Form::OneList { verb, brackets } => Ok(fit_one_list(verb, brackets, rest)),
        Form::TwoLists { one, other } => fit_two_lists(alloc, line, one, other, rest),
    }
}

/// How the tokens of a line fit the forms.
pub(crate) fn fit_of(alloc: Global, line: &[u8], tokens: &[Token]) -> Result<Fit, NoMemory>
    requires { All (IsPlaced line.now) tokens.now }
    ensures { IfOk result (λ fit. FitsForms line.now tokens.now fit) }
{
    let (first, rest) = match tokens {
        [] => return Ok(Fit::More),
        [first, rest @ ..] => (*first, rest),
    };
    match form_at(alloc, line, first)? {
        None => Ok(Fit::Stops(0)),
        Some(form) => fit_behind(alloc, line, form, rest),
    }
}

fn word_of(alloc: Global, line: &[u8], token: Token) -> Result<Word, NoMemory>
    requires { IsPlaced line.now token }
    ensures { IfOk result (λ word. word ≡ word_in line.now token) }
{
    let word = token.word(alloc, line)?;
    Word::short(alloc, &word)
}

/// The words among these tokens.
pub(crate) fn words_of(alloc: Global, line: &[u8], tokens: &[Token]) -> Result<Words, NoMemory>
    requires { All (IsPlaced line.now) tokens.now }
    ensures { IfOk result (λ words. words ≡ words_among (parts_in line.now tokens.now)) }
{
    let mut words = Words::new(alloc);
    for token in tokens {
        if token.kind.is_word() {
            words.push(word_of(alloc, line, *token)?)?;
        }
    }
    Ok(words)
}
