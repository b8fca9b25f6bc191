//! How a session reads its lines: the items that they end, and the text of a load.

ghost use Rattle.std.specs.Prelude.{◌≡◌, ◌∷◌, ◌++◌, [], IfOk, OnOk, OnErr, Some};
ghost use Rattle.io_edge.specs.declared.lines.Line.TheVariants.{Text, TooLong, End};
ghost use Rattle.session_shell.specs.declared.reading.Reading.TheVariants.{Collecting};
ghost use Rattle.session_shell.specs.Items.{AsksSound, ComesOf, EndsText, CommandLine, with_line};

use crate::json_load::json_item;
use cfg_base::{Bytes, NoMemory};
use commands::{Command, LoadWay};
use io_edge::Line;
use reply_text::ShellFault;
use shell_words::{ReadFault, Words0, read_line};
use std::alloc::Global;

/// The most bytes of a loaded text, the LF of each of its lines counted.
pub const TEXT_LIMIT: usize = 2_097_152;

/// The limit of a loaded text, by its number.
pub fn limits_are_stated()
    ensures text { TEXT_LIMIT ≡ 2097152 }
{}

/// The line that ends a loaded text.
const END_OF_TEXT: [u8; 1] = [4];

/// What a session takes one turn for.
#[derive(Debug, Drop)]
pub enum Item {
    Ask(Command),
    /// A commit that is synchronized once it is made.
    Synchronize(Command),
    /// A show of the whole active configuration as JSON.
    ShowJson,
    /// A line that is no command, or a load whose text has a fault.
    Wrong(ShellFault),
    /// A load whose JSON text couldn't be read for want of memory.
    NoMemory,
}

/// How a session reads its next line.
#[derive(Debug, Drop)]
pub enum Reading {
    Operational,
    Configuring,
    /// The text of a load, which is JSON or isn't, is collected, up to the line that ends it.
    Collecting {
        way: LoadWay,
        json: bool,
        text: Bytes,
    },
    /// A text that had that fault is skipped up to the line that ends it.
    Spoilt(ShellFault),
    /// Logged out: no line is read.
    Out,
}

/// A text is collected from here on.
fn collecting(alloc: Global, way: LoadWay, json: bool) -> Reading
    ensures { result ≡ Collecting way json [] }
{
    Reading::Collecting {
        way,
        json,
        text: Bytes::empty(alloc),
    }
}

/// What a line asks: an item, a text that is to be collected, or nothing.
fn read_item(
    alloc: Global,
    configuring: bool,
    reading: &mut Reading,
    line: &[u8],
) -> Result<Option<Item>, NoMemory>
    ensures ok { IfOk result (λ item. CommandLine configuring reading.old line.now (item, reading.new)) }
    ensures sound { IfOk result AsksSound }
    ensures err { OnErr result (reading.new ≡ reading.old) }
{
    match read_line(alloc, configuring, line) {
        Ok(None) => Ok(None),
        Ok(Some(Words0::Whole(command))) => Ok(Some(Item::Ask(command))),
        Ok(Some(Words0::Synchronize(command))) => Ok(Some(Item::Synchronize(command))),
        Ok(Some(Words0::ShowJson)) => Ok(Some(Item::ShowJson)),
        Ok(Some(Words0::NeedsText(way))) => {
            *reading = collecting(alloc, way, false);
            Ok(None)
        }
        Ok(Some(Words0::NeedsJson(way))) => {
            *reading = collecting(alloc, way, true);
            Ok(None)
        }
        Err(ReadFault::Syntax(place)) => Ok(Some(Item::Wrong(ShellFault::Syntax(place)))),
        Err(ReadFault::NoMemory) => Err(NoMemory),
    }
}

/// The item of a load, whose text has ended.
fn load_item(alloc: Global, way: LoadWay, json: bool, text: Bytes) -> Item
    ensures ends { EndsText way json text result }
    ensures sound { AsksSound (Some result) }
{
    if json {
        json_item(alloc, way, text.as_slice())
    } else {
        Item::Ask(Command::Load { way, text })
    }
}

/// The end of a text: the item of its load.
fn finish_text(alloc: Global, reading: &mut Reading) -> Option<Item>
    ensures ends { ComesOf reading.old End (result, reading.new) }
    ensures sound { AsksSound result }
{
    match std::mem::replace(reading, Reading::Configuring) {
        Reading::Collecting { way, json, text } => Some(load_item(alloc, way, json, text)),
        Reading::Spoilt(fault) => Some(Item::Wrong(fault)),
        other => {
            *reading = other;
            None
        }
    }
}

/// Puts a line and its LF after a text, which stays as it was where memory runs out.
fn put_line(text: &mut Vec<u8>, line: &[u8]) -> Result<(), NoMemory>
    ensures ok { OnOk result (text.new.items ≡ text.old.items ++ (line.now ++ 10 ∷ [])) }
    ensures err { OnErr result (text.new.items ≡ text.old.items) }
{
    let size = text.len();
    if text.extend_from_slice(line).is_ok() && text.push(b'\n').is_ok() {
        Ok(())
    } else {
        text.truncate(size);
        Err(NoMemory)
    }
}

/// Puts a line after a text that is collected. Past the limit nothing of the text is kept.
fn gather(reading: &mut Reading, line: &[u8]) -> Result<(), NoMemory>
    ensures ok { OnOk result (reading.new ≡ with_line reading.old line.now) }
    ensures err { OnErr result (reading.new ≡ reading.old) }
{
    match std::mem::replace(reading, Reading::Spoilt(ShellFault::TextTooLong)) {
        Reading::Collecting { way, json, text } => {
            if line.len() >= TEXT_LIMIT.saturating_sub(text.as_slice().len()) {
                return Ok(());
            }
            let mut bytes = text.into_vec();
            let put = put_line(&mut bytes, line);
            *reading = Reading::Collecting {
                way,
                json,
                text: Bytes::from(bytes),
            };
            put
        }
        other => {
            *reading = other;
            Ok(())
        }
    }
}

/// What results from a line of text.
fn comes_of_text(
    alloc: Global,
    reading: &mut Reading,
    line: &[u8],
) -> Result<Option<Item>, NoMemory>
    ensures ok { IfOk result (λ item. ComesOf reading.old (Text line.now) (item, reading.new)) }
    ensures sound { IfOk result AsksSound }
    ensures err { OnErr result (reading.new ≡ reading.old) }
{
    match reading {
        Reading::Operational => read_item(alloc, false, reading, line),
        Reading::Configuring => read_item(alloc, true, reading, line),
        Reading::Collecting { .. } | Reading::Spoilt(_) if line == END_OF_TEXT.as_slice() => {
            Ok(finish_text(alloc, reading))
        }
        Reading::Collecting { .. } => {
            gather(reading, line)?;
            Ok(None)
        }
        Reading::Spoilt(_) | Reading::Out => Ok(None),
    }
}

/// What results from a line that is too long.
fn comes_of_long(reading: &mut Reading) -> Option<Item>
    ensures long { ComesOf reading.old TooLong (result, reading.new) }
    ensures sound { AsksSound result }
{
    match reading {
        Reading::Operational | Reading::Configuring => Some(Item::Wrong(ShellFault::LineTooLong)),
        Reading::Collecting { .. } => {
            *reading = Reading::Spoilt(ShellFault::LineTooLong);
            None
        }
        Reading::Spoilt(_) | Reading::Out => None,
    }
}

/// What results from a line: the item that it ends, if it ends one. The reading is the next line's, before any reply.
pub(crate) fn comes_of(
    alloc: Global,
    reading: &mut Reading,
    line: &Line,
) -> Result<Option<Item>, NoMemory>
    ensures ok { IfOk result (λ item. ComesOf reading.old line.now (item, reading.new)) }
    ensures sound { IfOk result AsksSound }
    ensures err { OnErr result (reading.new ≡ reading.old) }
{
    match line {
        Line::Text(text) => comes_of_text(alloc, reading, text.as_slice()),
        Line::TooLong => Ok(comes_of_long(reading)),
        Line::End => Ok(finish_text(alloc, reading)),
        Line::Failed | Line::InputFull => Ok(None),
    }
}
