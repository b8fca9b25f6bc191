//! What was given for a show, as JSON.

ghost use Rattle.std.specs.Prelude.{◌≡◌, IfOk, option_copied};
ghost use Rattle.session_shell.specs.declared.reading.Item.TheVariants.{ShowJson};
ghost use Rattle.session_shell.specs.Exchange.{asked_item};
ghost use Rattle.session_shell.specs.Json.{IsJsonOf, MayBeWritten};
ghost use Rattle.session_shell.specs.Shows.{IsPrinted, PrintsWhole, shown_text, text_in, whole_show};

use crate::door::{Given0, SyncedTurn};
use cfg_base::{Bytes, NoMemory, Words};
use commands::{Command, Form};
use config_core::Reply;
use curly_grammar::{TextFault, parse, texts_say_one_thing};
use curly_text::printed_text_is_read_back;
use json_text::write;
use std::alloc::Global;

/// How what was given for a command is written.
#[derive(Debug, Drop)]
pub enum Manner {
    /// As its reply's own text.
    Plain,
    /// A JSON show, as this text.
    Json(Bytes),
    /// A JSON show, as the line for want of memory: it was answered with a text, and memory for its JSON was wanting.
    Dry,
    /// A JSON show, as its reply's own text, since that is no text of a configuration.
    NoJson,
    /// A commit that is synchronized, as its reply's own text and then the line of that answer to `synchronize`.
    Synchronized(SyncedTurn),
    /// A commit that is synchronized, as its reply's own text, since it wasn't made.
    NoCommit,
}

/// The show of the whole active configuration.
pub(crate) fn whole_show(alloc: Global) -> Command
    ensures { result ≡ whole_show }
{
    Command::ShowActive {
        words: Words::new(alloc),
        form: Form::Curly,
    }
}

/// The text of a reply, where it is one.
fn text_in(reply: &Reply) -> Option<&Bytes>
    ensures { option_copied result ≡ text_in reply.now }
{
    match reply {
        Reply::Text(text) => Some(text),
        _ => None,
    }
}

/// The text that was given, where one was.
fn shown_text(given: &Given0) -> Option<&Bytes>
    ensures { option_copied result ≡ shown_text given.now }
{
    match given {
        Given0::Kept { place: _, reply } | Given0::Seen { front: _, reply } => text_in(reply),
        Given0::Denied { .. } | Given0::Unready { .. } | Given0::NoMemory => None,
    }
}

/// The JSON of the configuration whose curly text this is.
fn json_of(alloc: Global, curly: &[u8]) -> Result<Bytes, NoMemory>
    requires { IsPrinted curly.now }
    ensures { IfOk result (IsJsonOf curly.now) }
{
    printed_text_is_read_back();
    texts_say_one_thing();
    match parse(alloc, curly) {
        Ok(marked) => write(alloc, &marked.tree),
        Err(TextFault::NoMemory) => Err(NoMemory),
        Err(_) => unreachable!(),
    }
}

/// How what was given for a JSON show is written.
pub(crate) fn manner_of(alloc: Global, given: &Given0) -> Manner
    requires { PrintsWhole whole_show given.now }
    ensures written { MayBeWritten whole_show given.now result }
    ensures json { asked_item result whole_show ≡ ShowJson }
{
    match shown_text(given) {
        Some(curly) => match json_of(alloc, curly.as_slice()) {
            Ok(text) => Manner::Json(text),
            Err(NoMemory) => Manner::Dry,
        },
        None => Manner::NoJson,
    }
}
