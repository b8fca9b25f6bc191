//! From a line to what it asks.

ghost use Rattle.std.specs.Prelude.{◌≡◌, IfOk, drop, length};
ghost use Rattle.shell_words.specs.declared.reader.ReadFault.TheVariants.{NoMemory};
ghost use Rattle.shell_words.specs.Form.{forms_of};
ghost use Rattle.shell_words.specs.Made.{AsksSound};
ghost use Rattle.shell_words.specs.Reading.{Answers, AnswersWhole, Gives, IsReading, capped, first_place, place_of};
ghost use Rattle.shell_words.specs.Walk.{furthest};

use crate::form::forms_of;
use crate::item::{Item, items};
use crate::making::{Words0, made_by};
use crate::walk::{form_for, furthest};
use cfg_base::NoMemory;
use cfg_lex::{LexFault, cut_text};
use std::alloc::Global;
use thiserror::Error;

/// Why a line is no command.
#[derive(Clone, Copy, Debug, PartialEq, Eq, Error)]
pub enum ReadFault {
    /// The first token that doesn't fit stands at that byte, or the line ends there too early.
    #[error("syntax error at byte {0}")]
    Syntax(u32),
    #[error("out of memory")]
    NoMemory,
}

impl From<NoMemory> for ReadFault {
    ghost from_gives = { λ _ fault. fault ≡ NoMemory };

    fn from(_: NoMemory) -> ReadFault {
        ReadFault::NoMemory
    }
}

/// The place of the first token, or else the end.
fn first_place(items: &[Item<'_>], end: usize) -> usize
    ensures { result ≡ first_place items.now end }
{
    match items {
        [] => end,
        [item, ..] => item.place(),
    }
}

fn syntax(place: usize) -> ReadFault
    ensures { result ≡ ReadFault.Syntax (capped place) }
{
    ReadFault::Syntax(u32::try_from(place).unwrap_or(u32::MAX))
}

/// Where a lexical fault stands.
fn place_of(fault: LexFault) -> usize
    ensures { result ≡ place_of fault }
{
    match fault {
        LexFault::BadByte(place)
        | LexFault::OpenComment(place)
        | LexFault::OpenQuote(place)
        | LexFault::LongWord(place) => place as usize,
        LexFault::NoMemory => 0,
    }
}

/// The fault of a line that goes on with these tokens, of which no form goes on with all.
fn misfit(configuring: bool, items: &[Item<'_>], end: usize) -> ReadFault
    ensures { let count = furthest (forms_of configuring) items.now in
        result ≡ ReadFault.Syntax (capped (first_place (drop count items.now) end)) }
{
    let count = furthest(forms_of(configuring), items);
    syntax(first_place(&items[count..], end))
}

/// What these tokens ask, which are all of a line.
fn read_whole(
    alloc: Global,
    configuring: bool,
    items: &[Item<'_>],
    end: usize,
) -> Result<Option<Words0>, ReadFault>
    ensures { Gives (AnswersWhole configuring items.now end) result }
{
    if items.is_empty() {
        return Ok(None);
    }
    match form_for(forms_of(configuring), items) {
        None => Err(misfit(configuring, items, end)),
        Some(form) => match made_by(alloc, &form, items) {
            Ok(made) => Ok(Some(made)),
            Err(_) => Err(ReadFault::NoMemory),
        },
    }
}

/// What a line of these tokens asks, where a lexical fault may stand after them.
fn read_items(
    alloc: Global,
    configuring: bool,
    items: &[Item<'_>],
    fault: Option<LexFault>,
    end: usize,
) -> Result<Option<Words0>, ReadFault>
    ensures { Gives (Answers configuring items.now fault end) result }
{
    match fault {
        None => read_whole(alloc, configuring, items, end),
        Some(fault) => Err(misfit(configuring, items, place_of(fault))),
    }
}

/// What a line asks, in configuration mode or in operational mode; nothing where it has no tokens. A command that it
/// asks is sound.
pub fn read_line(alloc: Global, configuring: bool, line: &[u8]) -> Result<Option<Words0>, ReadFault>
    ensures reading { Gives (IsReading configuring line.now) result }
    ensures sound { IfOk result AsksSound }
{
    let cut = cut_text(alloc, line)?;
    let items = items(alloc, line, cut.tokens.as_slice())?;
    read_items(alloc, configuring, &items, cut.fault, line.len())
}
