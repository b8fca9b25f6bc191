//! The texts of refusals, written piece by piece.

ghost use Rattle.std.specs.Prelude.{◌≤◌, ◌∷◌, ◌++◌, [], OnErr, codes, decimal};
ghost use Rattle.cfg_base.specs.Counts.{Rose};
ghost use Rattle.config_core.specs.declared.reply.Refusal.TheVariants.{Check, Line, LineEdit, Locked, NoRollback};
ghost use Rattle.io_edge.specs.Wrote.{Wrote};
ghost use Rattle.reply_text.specs.Texts.{message_of, message_of_edit, message_of_text, text_of_refusal};

use crate::writing::{
    put_both, put_date_between, put_number_before, put_number_behind, put_number_between, put_path,
    put_told,
};
use cfg_base::{Path, UserName};
use config_core::Refusal;
use curly_grammar::TextFault;
use edit_ops::EditFault;
use io_edge::{PutFailed, Sink, put_all};

fn put_edit_message<K: Sink>(sink: &mut K, fault: &EditFault) -> Result<(), PutFailed>
    ensures wrote { Wrote result (message_of_edit fault.now) (K.view sink.old).held (K.view sink.new).held }
    ensures cause { OnErr result (Rose (K.view sink.old).faults (K.view sink.new).faults) }
    ensures later { (K.view sink.old).faults ≤ (K.view sink.new).faults }
{
    match fault {
        EditFault::Unknown(path) => put_told(sink, b"unknown statement: ", path),
        EditFault::BadValue(path) => put_told(sink, b"bad value: ", path),
        EditFault::Incomplete(path) => put_told(sink, b"incomplete statement: ", path),
        EditFault::Extra(path) => put_told(sink, b"unexpected words after: ", path),
        EditFault::NotNamed(path) => put_told(sink, b"statement has no such name: ", path),
        EditFault::NotOrdered(path) => put_told(sink, b"statements are not ordered: ", path),
        EditFault::NotThere(path) => put_told(sink, b"statement not found: ", path),
        EditFault::AlreadyThere(path) => put_told(sink, b"statement already exists: ", path),
        EditFault::Protected(path) => put_told(sink, b"statement is protected: ", path),
        EditFault::TooMany => put_all(sink, b"more than 16384 statements"),
        EditFault::NoMemory => put_all(sink, b"out of memory"),
    }
}

fn put_at_byte<K: Sink>(sink: &mut K, place: u32, words: &[u8]) -> Result<(), PutFailed>
    ensures wrote { Wrote result (codes "text at byte " ++ (decimal place ++ words.now)) (K.view sink.old).held (K.view sink.new).held }
    ensures cause { OnErr result (Rose (K.view sink.old).faults (K.view sink.new).faults) }
    ensures later { (K.view sink.old).faults ≤ (K.view sink.new).faults }
{
    put_number_between(sink, b"text at byte ", place, words)
}

fn put_text_message<K: Sink>(sink: &mut K, fault: TextFault) -> Result<(), PutFailed>
    ensures wrote { Wrote result (message_of_text fault) (K.view sink.old).held (K.view sink.new).held }
    ensures cause { OnErr result (Rose (K.view sink.old).faults (K.view sink.new).faults) }
    ensures later { (K.view sink.old).faults ≤ (K.view sink.new).faults }
{
    match fault {
        TextFault::BadByte(place) => put_at_byte(sink, place, b": bad byte"),
        TextFault::OpenComment(place) => put_at_byte(sink, place, b": comment not closed"),
        TextFault::OpenQuote(place) => put_at_byte(sink, place, b": quote not closed"),
        TextFault::LongWord(place) => put_at_byte(sink, place, b": word too long"),
        TextFault::Unexpected(place) => put_at_byte(sink, place, b": unexpected"),
        TextFault::Unknown(place) => put_at_byte(sink, place, b": unknown statement"),
        TextFault::BadValue(place) => put_at_byte(sink, place, b": bad value"),
        TextFault::TooMany => put_all(sink, b"more than 16384 statements"),
        TextFault::NoMemory => put_all(sink, b"out of memory"),
    }
}

fn put_line_syntax<K: Sink>(sink: &mut K, line: u32, place: u32) -> Result<(), PutFailed>
    ensures wrote { Wrote result (message_of (Line line place)) (K.view sink.old).held (K.view sink.new).held }
    ensures cause { OnErr result (Rose (K.view sink.old).faults (K.view sink.new).faults) }
    ensures later { (K.view sink.old).faults ≤ (K.view sink.new).faults }
{
    match put_number_between(sink, b"line ", line, b": ") {
        Ok(()) => put_number_behind(sink, b"syntax error at byte ", u64::from(place)),
        Err(failed) => Err(failed),
    }
}

fn put_line_edit<K: Sink>(sink: &mut K, line: u32, fault: &EditFault) -> Result<(), PutFailed>
    ensures wrote { Wrote result (message_of (LineEdit line fault.now)) (K.view sink.old).held (K.view sink.new).held }
    ensures cause { OnErr result (Rose (K.view sink.old).faults (K.view sink.new).faults) }
    ensures later { (K.view sink.old).faults ≤ (K.view sink.new).faults }
{
    match put_number_between(sink, b"line ", line, b": ") {
        Ok(()) => put_edit_message(sink, fault),
        Err(failed) => Err(failed),
    }
}

fn put_no_rollback<K: Sink>(sink: &mut K, n: u32, kept: u32) -> Result<(), PutFailed>
    ensures wrote { Wrote result (message_of (NoRollback n kept)) (K.view sink.old).held (K.view sink.new).held }
    ensures cause { OnErr result (Rose (K.view sink.old).faults (K.view sink.new).faults) }
    ensures later { (K.view sink.old).faults ≤ (K.view sink.new).faults }
{
    match put_number_between(sink, b"no rollback ", n, b", ") {
        Ok(()) => put_number_before(sink, kept, b" kept"),
        Err(failed) => Err(failed),
    }
}

fn put_check<K: Sink>(sink: &mut K, number: u8, path: &Path) -> Result<(), PutFailed>
    ensures wrote { Wrote result (message_of (Check number path.now)) (K.view sink.old).held (K.view sink.new).held }
    ensures cause { OnErr result (Rose (K.view sink.old).faults (K.view sink.new).faults) }
    ensures later { (K.view sink.old).faults ≤ (K.view sink.new).faults }
{
    match put_number_between(sink, b"check C", u32::from(number), b" failed: ") {
        Ok(()) => put_path(sink, path),
        Err(failed) => Err(failed),
    }
}

fn put_locked<K: Sink>(sink: &mut K, user: &UserName) -> Result<(), PutFailed>
    ensures wrote { Wrote result (message_of (Locked user.now)) (K.view sink.old).held (K.view sink.new).held }
    ensures cause { OnErr result (Rose (K.view sink.old).faults (K.view sink.new).faults) }
    ensures later { (K.view sink.old).faults ≤ (K.view sink.new).faults }
{
    put_both(
        sink,
        b"configuration database locked by: ",
        user.as_word().as_bytes(),
    )
}

fn put_message<K: Sink>(sink: &mut K, refusal: &Refusal) -> Result<(), PutFailed>
    ensures wrote { Wrote result (message_of refusal.now) (K.view sink.old).held (K.view sink.new).held }
    ensures cause { OnErr result (Rose (K.view sink.old).faults (K.view sink.new).faults) }
    ensures later { (K.view sink.old).faults ≤ (K.view sink.new).faults }
{
    match refusal {
        Refusal::WrongMode => put_all(sink, b"not in this mode"),
        Refusal::Locked(user) => put_locked(sink, user),
        Refusal::Waiting(at) => put_date_between(sink, b"commit pending at ", *at, b" UTC"),
        Refusal::Unconfirmed(deadline) => {
            put_number_behind(sink, b"commit not confirmed, deadline ", *deadline)
        }
        Refusal::NotLater { .. } => put_all(sink, b"time is not after now"),
        Refusal::NothingWaits => put_all(sink, b"no commit pending"),
        Refusal::Modified => put_all(sink, b"configuration database modified"),
        Refusal::Unknown(path) => put_told(sink, b"unknown statement: ", path),
        Refusal::BadValue(path) => put_told(sink, b"bad value: ", path),
        Refusal::Incomplete(path) => put_told(sink, b"incomplete statement: ", path),
        Refusal::Extra(path) => put_told(sink, b"unexpected words after: ", path),
        Refusal::NotNamed(path) => put_told(sink, b"statement has no such name: ", path),
        Refusal::NotOrdered(path) => put_told(sink, b"statements are not ordered: ", path),
        Refusal::NotThere(path) => put_told(sink, b"statement not found: ", path),
        Refusal::AlreadyThere(path) => put_told(sink, b"statement already exists: ", path),
        Refusal::NotALevel(path) => put_told(sink, b"not a level: ", path),
        Refusal::Protected(path) => put_told(sink, b"statement is protected: ", path),
        Refusal::TooMany => put_all(sink, b"more than 16384 statements"),
        Refusal::Conflict(path) => put_told(sink, b"conflicting change: ", path),
        Refusal::TooWide => put_all(sink, b"more than 65536 expanded statements"),
        Refusal::NoRollback { n, kept } => put_no_rollback(sink, *n, *kept),
        Refusal::Text(fault) => put_text_message(sink, *fault),
        Refusal::Line { line, place } => put_line_syntax(sink, *line, *place),
        Refusal::LineEdit { line, fault } => put_line_edit(sink, *line, fault),
        Refusal::Check { number, path } => put_check(sink, *number, path),
        Refusal::Exhausted => put_all(sink, b"no more entries"),
        Refusal::DiskFault => put_all(sink, b"journal write failed"),
    }
}

fn put_message_line<K: Sink>(sink: &mut K, refusal: &Refusal) -> Result<(), PutFailed>
    ensures wrote { Wrote result (message_of refusal.now ++ 10 ∷ []) (K.view sink.old).held (K.view sink.new).held }
    ensures cause { OnErr result (Rose (K.view sink.old).faults (K.view sink.new).faults) }
    ensures later { (K.view sink.old).faults ≤ (K.view sink.new).faults }
{
    match put_message(sink, refusal) {
        Ok(()) => put_all(sink, b"\n"),
        Err(failed) => Err(failed),
    }
}

/// Writes the line of a refusal.
pub(crate) fn put_refusal<K: Sink>(sink: &mut K, refusal: &Refusal) -> Result<(), PutFailed>
    ensures wrote { Wrote result (text_of_refusal refusal.now) (K.view sink.old).held (K.view sink.new).held }
    ensures cause { OnErr result (Rose (K.view sink.old).faults (K.view sink.new).faults) }
    ensures later { (K.view sink.old).faults ≤ (K.view sink.new).faults }
{
    match put_all(sink, b"error: ") {
        Ok(()) => put_message_line(sink, refusal),
        Err(failed) => Err(failed),
    }
}
