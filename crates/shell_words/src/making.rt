//! What a form makes of the tokens of a line of it.

ghost use Rattle.std.specs.Prelude.{◌≡◌, IfOk};
ghost use Rattle.commands.specs.declared.command.Command.TheVariants.{CommitAt};
ghost use Rattle.shell_words.specs.declared.making.Words0.TheVariants.{Whole};
ghost use Rattle.shell_words.specs.Form.{parts_of};
ghost use Rattle.shell_words.specs.Made.{comment_in, commit_of, made_by, minutes_in, number_or, when_in};
ghost use Rattle.shell_words.specs.Walk.{given};

use crate::form::{CommandForm, Confirmed, Makes};
use crate::item::Item;
use crate::number::number_of;
use crate::pair::change_in;
use crate::time::when_of;
use crate::walk::give;
use cfg_base::{NoMemory, Word, Words};
use commands::{Command, LoadWay, When};
use std::alloc::Global;

/// What a line asks.
#[derive(Debug, Drop, PartialEq, Eq)]
pub enum Words0 {
    /// This command.
    Whole(Command),
    /// This commit, which is to be synchronized with the backup engine once it is made.
    Synchronize(Command),
    /// A show of the whole active configuration as JSON.
    ShowJson,
    /// A load of the text in the lines that follow.
    NeedsText(LoadWay),
    /// A merge or an override by the JSON text in the lines that follow.
    NeedsJson(LoadWay),
}

/// The words that the tokens give a form.
fn words_of(alloc: Global, form: &CommandForm, items: &[Item<'_>]) -> Result<Words, NoMemory>
    ensures { IfOk result (λ words. words ≡ given (parts_of form.now) items.now) }
{
    let mut words = Words::new(alloc);
    give(alloc, &mut words, &form.parts(), items)?;
    Ok(words)
}

/// The number that the first of the words says, or else this one.
fn number_or(other: u32, words: &Words) -> u32
    ensures { result ≡ number_or other words.now }
{
    match words.as_slice() {
        [] => other,
        [word, ..] => number_of(word.as_bytes()).unwrap_or(other),
    }
}

/// The minutes that a commit has for its confirmation.
fn minutes_in(confirmed: Confirmed, words: &Words) -> u32
    ensures { result ≡ minutes_in confirmed words.now }
{
    match confirmed {
        Confirmed::No => 0,
        Confirmed::InTen => 10,
        Confirmed::InMinutes => number_or(10, words),
    }
}

/// The last of the words, where it is a comment.
fn comment_in(alloc: Global, comment: bool, words: &Words) -> Result<Word, NoMemory>
    ensures { IfOk result (λ word. word ≡ comment_in comment words.now) }
{
    match words.as_slice().last() {
        Some(word) if comment => Ok(word.clone()?),
        _ => Ok(Word::empty(alloc)),
    }
}

/// The commit with these options, whose minutes and comment are among the words.
fn commit_of(
    alloc: Global,
    confirmed: Confirmed,
    comment: bool,
    quit: bool,
    words: &Words,
) -> Result<Command, NoMemory>
    ensures { IfOk result (λ command. command ≡ commit_of confirmed comment quit words.now) }
{
    let minutes = minutes_in(confirmed, words);
    let comment = comment_in(alloc, comment, words)?;
    Ok(Command::Commit {
        minutes,
        comment,
        quit,
    })
}

/// The time that the first of the words says, or else midnight.
fn when_in(words: &Words) -> When
    ensures { result ≡ when_in words.now }
{
    match words.as_slice() {
        [] => When::Today { second: 0 },
        [word, ..] => when_of(word.as_bytes()).unwrap_or(When::Today { second: 0 }),
    }
}

/// The commit at the time of the first of the words.
fn commit_at(alloc: Global, comment: bool, words: &Words) -> Result<Command, NoMemory>
    ensures { IfOk result (λ command. command ≡ CommitAt (when_in words.now) (comment_in comment words.now)) }
{
    let when = when_in(words);
    let comment = comment_in(alloc, comment, words)?;
    Ok(Command::CommitAt { when, comment })
}

fn whole(command: Command) -> Words0
    ensures { result ≡ Whole command }
{
    Words0::Whole(command)
}

/// What a form makes of the tokens of a line of it.
pub(crate) fn made_by(
    alloc: Global,
    form: &CommandForm,
    items: &[Item<'_>],
) -> Result<Words0, NoMemory>
    ensures { IfOk result (λ made. made ≡ made_by form.now.makes items.now (given (parts_of form.now) items.now)) }
{
    match form.makes {
        Makes::Configure(mode) => Ok(whole(Command::Configure(mode))),
        Makes::ShowActive(shown) => {
            let words = words_of(alloc, form, items)?;
            Ok(whole(Command::ShowActive { words, form: shown }))
        }
        Makes::ShowJson => Ok(Words0::ShowJson),
        Makes::ShowCommits => Ok(whole(Command::ShowCommits)),
        Makes::ClearCommit => Ok(whole(Command::ClearCommit)),
        Makes::Logout => Ok(whole(Command::Logout)),
        Makes::Change(verb) => {
            let words = words_of(alloc, form, items)?;
            Ok(whole(Command::Change(verb.op_of(words))))
        }
        Makes::Move(mover) => Ok(whole(Command::Change(change_in(alloc, mover, items)?))),
        Makes::Edit => Ok(whole(Command::Edit(words_of(alloc, form, items)?))),
        Makes::Up => Ok(whole(Command::Up(number_or(1, &words_of(alloc, form, items)?)))),
        Makes::Top => Ok(whole(Command::Top)),
        Makes::Exit => Ok(whole(Command::Exit)),
        Makes::ExitAll => Ok(whole(Command::ExitAll)),
        Makes::Show(shown) => {
            let words = words_of(alloc, form, items)?;
            Ok(whole(Command::Show { words, form: shown }))
        }
        Makes::Load(way) => Ok(Words0::NeedsText(way)),
        Makes::LoadJson(way) => Ok(Words0::NeedsJson(way)),
        Makes::Rollback => {
            let words = words_of(alloc, form, items)?;
            Ok(whole(Command::Rollback(number_or(0, &words))))
        }
        Makes::CheckOnly => Ok(whole(Command::CheckOnly)),
        Makes::Commit {
            confirmed,
            comment,
            quit,
        } => {
            let words = words_of(alloc, form, items)?;
            Ok(whole(commit_of(alloc, confirmed, comment, quit, &words)?))
        }
        Makes::Synchronize {
            confirmed,
            comment,
            quit,
        } => {
            let words = words_of(alloc, form, items)?;
            let command = commit_of(alloc, confirmed, comment, quit, &words)?;
            Ok(Words0::Synchronize(command))
        }
        Makes::CommitAt { comment } => {
            let words = words_of(alloc, form, items)?;
            Ok(whole(commit_at(alloc, comment, &words)?))
        }
        Makes::Update => Ok(whole(Command::Update)),
        Makes::Status => Ok(whole(Command::Status)),
    }
}
