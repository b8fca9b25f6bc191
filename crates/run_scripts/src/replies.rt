//! Replies of the machine.

use crate::asking::{put_minutes, put_quit};
use cfg_base::{Moment, UserName};
use commands::Mode;
use config_core::{Refusal, Reply};
use curly_grammar::TextFault;
use script_lines::{
    Text, say, say_broken, say_bytes, say_counted, say_fault_of_line, say_line_fault, say_number,
    say_path, say_text, say_text_fault,
};

fn say_no_rollback(out: &mut Text, n: u32, kept: u32) {
    out.put("= no rollback ");
    out.put_number(u64::from(n));
    out.put(", ");
    out.put_number(u64::from(kept));
    out.put(" kept\n");
}

/// The fault of a text, after the word `text`.
fn say_unread_text(out: &mut Text, fault: TextFault) {
    say(out, "text");
    say_text_fault(out, fault, None);
}

/// A commit with the options that it has.
fn say_committed(out: &mut Text, minutes: u32, quit: bool) {
    out.put("= committed");
    put_minutes(out, minutes);
    put_quit(out, quit);
}

/// The user whose session is in exclusive mode.
fn say_locked(out: &mut Text, user: &UserName) {
    say_bytes(out, "locked by", user.as_word().as_bytes());
}

/// A time that isn't after a moment.
fn say_not_later(out: &mut Text, at: Moment, moment: Moment) {
    out.put("= not later ");
    out.put_number(at.seconds());
    out.put(" than ");
    out.put_number(moment.seconds());
    out.put("\n");
}

fn say_refusal(out: &mut Text, refusal: &Refusal) {
    match refusal {
        Refusal::WrongMode => say(out, "wrong mode"),
        Refusal::Locked(user) => say_locked(out, user),
        Refusal::Waiting(at) => say_counted(out, "waiting", at.seconds()),
        Refusal::Unconfirmed(deadline) => say_counted(out, "unconfirmed", *deadline),
        Refusal::NotLater { at, moment } => say_not_later(out, *at, *moment),
        Refusal::NothingWaits => say(out, "nothing waits"),
        Refusal::Modified => say(out, "modified"),
        Refusal::Unknown(path) => say_path(out, "unknown", path),
        Refusal::BadValue(path) => say_path(out, "bad value", path),
        Refusal::Incomplete(path) => say_path(out, "incomplete", path),
        Refusal::Extra(path) => say_path(out, "extra", path),
        Refusal::NotNamed(path) => say_path(out, "not named", path),
        Refusal::NotOrdered(path) => say_path(out, "not ordered", path),
        Refusal::NotThere(path) => say_path(out, "not there", path),
        Refusal::AlreadyThere(path) => say_path(out, "already there", path),
        Refusal::NotALevel(path) => say_path(out, "not a level", path),
        Refusal::Protected(path) => say_path(out, "protected", path),
        Refusal::TooMany => say(out, "too many"),
        Refusal::Conflict(path) => say_path(out, "conflict", path),
        Refusal::TooWide => say(out, "too wide"),
        Refusal::NoRollback { n, kept } => say_no_rollback(out, *n, *kept),
        Refusal::Text(fault) => say_unread_text(out, *fault),
        Refusal::Line { line, place } => say_fault_of_line(out, *line, *place),
        Refusal::LineEdit { line, fault } => say_line_fault(out, *line, fault),
        Refusal::Check { number, path } => say_broken(out, *number, path),
        Refusal::Exhausted => say(out, "exhausted"),
        Refusal::DiskFault => say(out, "disk fault"),
    }
}

fn say_reply_text(out: &mut Text, text: &[u8]) {
    say_number(out, text.len() as u64);
    say_text(out, text);
}

pub(crate) fn say_reply(out: &mut Text, reply: &Reply) {
    match reply {
        Reply::Done => say(out, "done"),
        Reply::LoggedOut => say(out, "logged out"),
        Reply::Text(text) => say_reply_text(out, text.as_slice()),
        Reply::Entered(Mode::Shared) => say(out, "entered"),
        Reply::Entered(Mode::Private) => say(out, "entered private"),
        Reply::Entered(Mode::Exclusive) => say(out, "entered exclusive"),
        Reply::Left => say(out, "left"),
        Reply::Loaded => say(out, "loaded"),
        Reply::Checked => say(out, "checked"),
        Reply::Committed { minutes, quit } => say_committed(out, *minutes, *quit),
        Reply::Scheduled(at) => say_counted(out, "scheduled", at.seconds()),
        Reply::ClearedCommit => say(out, "cleared commit"),
        Reply::Refused(refusal) => say_refusal(out, refusal),
    }
}
