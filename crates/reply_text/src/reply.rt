//! The texts of replies and of refused lines, written piece by piece.

ghost use Rattle.std.specs.Prelude.{◌≤◌, OnErr};
ghost use Rattle.cfg_base.specs.Counts.{Rose};
ghost use Rattle.config_core.specs.declared.reply.Reply.TheVariants.{Committed};
ghost use Rattle.io_edge.specs.Wrote.{Wrote};
ghost use Rattle.reply_text.specs.Texts.{complete_text, deadline_text, no_memory_text, text_of_entry, text_of_fault, text_of_reply};

use crate::fault::ShellFault;
use crate::json::put_json_fault;
use crate::refusal::put_refusal;
use crate::writing::{put_date_between, put_number_between};
use commands::Mode;
use config_core::Reply;
use io_edge::{PutFailed, Sink, put_all};

fn put_deadline<K: Sink>(sink: &mut K, minutes: u32) -> Result<(), PutFailed>
    ensures wrote { Wrote result (deadline_text minutes) (K.view sink.old).held (K.view sink.new).held }
    ensures cause { OnErr result (Rose (K.view sink.old).faults (K.view sink.new).faults) }
    ensures later { (K.view sink.old).faults ≤ (K.view sink.new).faults }
{
    if minutes == 0 {
        return Ok(());
    }
    put_number_between(
        sink,
        b"commit confirmed will be automatically rolled back in ",
        minutes,
        b" minutes unless confirmed\n",
    )
}

fn put_complete<K: Sink>(sink: &mut K, quit: bool) -> Result<(), PutFailed>
    ensures wrote { Wrote result (complete_text quit) (K.view sink.old).held (K.view sink.new).held }
    ensures cause { OnErr result (Rose (K.view sink.old).faults (K.view sink.new).faults) }
    ensures later { (K.view sink.old).faults ≤ (K.view sink.new).faults }
{
    if quit {
        put_all(sink, b"commit complete\nExiting configuration mode\n")
    } else {
        put_all(sink, b"commit complete\n")
    }
}

fn put_committed<K: Sink>(sink: &mut K, minutes: u32, quit: bool) -> Result<(), PutFailed>
    ensures wrote { Wrote result (text_of_reply (Committed minutes quit)) (K.view sink.old).held (K.view sink.new).held }
    ensures cause { OnErr result (Rose (K.view sink.old).faults (K.view sink.new).faults) }
    ensures later { (K.view sink.old).faults ≤ (K.view sink.new).faults }
{
    match put_deadline(sink, minutes) {
        Ok(()) => put_complete(sink, quit),
        Err(failed) => Err(failed),
    }
}

fn put_entry<K: Sink>(sink: &mut K, mode: Mode) -> Result<(), PutFailed>
    ensures wrote { Wrote result (text_of_entry mode) (K.view sink.old).held (K.view sink.new).held }
    ensures cause { OnErr result (Rose (K.view sink.old).faults (K.view sink.new).faults) }
    ensures later { (K.view sink.old).faults ≤ (K.view sink.new).faults }
{
    match mode {
        Mode::Shared => put_all(sink, b"Entering configuration mode\n"),
        Mode::Private | Mode::Exclusive => put_all(
            sink,
            b"warning: uncommitted changes will be discarded on exit\nEntering configuration mode\n",
        ),
    }
}

/// Writes the text of a reply.
pub fn put_reply<K: Sink>(sink: &mut K, reply: &Reply) -> Result<(), PutFailed>
    ensures wrote { Wrote result (text_of_reply reply.now) (K.view sink.old).held (K.view sink.new).held }
    ensures cause { OnErr result (Rose (K.view sink.old).faults (K.view sink.new).faults) }
    ensures later { (K.view sink.old).faults ≤ (K.view sink.new).faults }
{
    match reply {
        Reply::Done | Reply::LoggedOut => Ok(()),
        Reply::Text(text) => put_all(sink, text.as_slice()),
        Reply::Entered(mode) => put_entry(sink, *mode),
        Reply::Left => put_all(sink, b"Exiting configuration mode\n"),
        Reply::Loaded => put_all(sink, b"load complete\n"),
        Reply::Checked => put_all(sink, b"configuration check succeeds\n"),
        Reply::Committed { minutes, quit } => put_committed(sink, *minutes, *quit),
        Reply::Scheduled(at) => put_date_between(sink, b"commit at ", *at, b" UTC scheduled\n"),
        Reply::ClearedCommit => put_all(sink, b"pending commit cleared\n"),
        Reply::Refused(refusal) => put_refusal(sink, refusal),
    }
}

/// Writes the text for a line that was refused.
pub fn put_fault<K: Sink>(sink: &mut K, fault: &ShellFault) -> Result<(), PutFailed>
    ensures wrote { Wrote result (text_of_fault fault.now) (K.view sink.old).held (K.view sink.new).held }
    ensures cause { OnErr result (Rose (K.view sink.old).faults (K.view sink.new).faults) }
    ensures later { (K.view sink.old).faults ≤ (K.view sink.new).faults }
{
    match fault {
        ShellFault::Syntax(place) => {
            put_number_between(sink, b"error: syntax error at byte ", *place, b"\n")
        }
        ShellFault::LineTooLong => put_all(sink, b"error: line too long\n"),
        ShellFault::TextTooLong => put_all(sink, b"error: text too long\n"),
        ShellFault::Json(fault) => put_json_fault(sink, fault),
    }
}

/// Writes the text for want of memory.
pub fn put_no_memory<K: Sink>(sink: &mut K) -> Result<(), PutFailed>
    ensures wrote { Wrote result (no_memory_text) (K.view sink.old).held (K.view sink.new).held }
    ensures cause { OnErr result (Rose (K.view sink.old).faults (K.view sink.new).faults) }
    ensures later { (K.view sink.old).faults ≤ (K.view sink.new).faults }
{
    put_all(sink, b"error: out of memory\n")
}
