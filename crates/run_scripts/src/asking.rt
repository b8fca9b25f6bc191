//! Commands by their words.

use cfg_base::{Bytes, Word};
use commands::{Command, Form, LoadWay, Mode, When};
use script_lines::{Text, put_bytes, say, say_change, say_counted, say_number, say_words};

fn show_active_as(form: Form) -> &'static str {
    match form {
        Form::Curly => "show active curly",
        Form::SetLines => "show active set",
        Form::Inherited => "show active inherited",
    }
}

fn show_as(form: Form) -> &'static str {
    match form {
        Form::Curly => "show curly",
        Form::SetLines => "show set",
        Form::Inherited => "show inherited",
    }
}

/// A load, without its text.
pub(crate) fn load_as(way: LoadWay) -> &'static str {
    match way {
        LoadWay::Merge => "load merge",
        LoadWay::Override => "load override",
        LoadWay::Replace => "load replace",
        LoadWay::SetLines => "load set",
    }
}

/// A load of a JSON text, without it.
pub(crate) fn load_json_as(way: LoadWay) -> &'static str {
    match way {
        LoadWay::Merge => "load json merge",
        LoadWay::Override => "load json override",
        LoadWay::Replace => "load json replace",
        LoadWay::SetLines => "load json set",
    }
}

/// A load with its text's number of bytes.
fn say_load(out: &mut Text, way: LoadWay, text: &Bytes) {
    out.put("= ");
    out.put(load_as(way));
    out.put(" of ");
    out.put_number(text.as_slice().len() as u64);
    out.put("\n");
}

/// The minutes of a commit that is to be confirmed.
pub(crate) fn put_minutes(out: &mut Text, minutes: u32) {
    if minutes > 0 {
        out.put(" confirmed ");
        out.put_number(u64::from(minutes));
    }
}

/// The end of a commit's line, which says whether it leaves configuration mode.
pub(crate) fn put_quit(out: &mut Text, quit: bool) {
    out.put(if quit { " and-quit\n" } else { "\n" });
}

fn put_comment(out: &mut Text, comment: &Word) {
    if !comment.as_bytes().is_empty() {
        out.put(" comment");
        put_bytes(out, comment.as_bytes());
    }
}

/// A commit with the options that it has.
fn say_commit(out: &mut Text, minutes: u32, comment: &Word, quit: bool) {
    out.put("= commit");
    put_minutes(out, minutes);
    put_comment(out, comment);
    put_quit(out, quit);
}

fn say_when(out: &mut Text, when: When) {
    match when {
        When::Today { second } => {
            out.put(" second ");
            out.put_number(u64::from(second));
            out.put(" of today");
        }
        When::OnDay { day, second } => {
            out.put(" second ");
            out.put_number(u64::from(second));
            out.put(" of day ");
            out.put_number(u64::from(day));
        }
    }
}

/// A commit that is set for a later time, with its comment.
fn say_commit_at(out: &mut Text, when: When, comment: &Word) {
    out.put("= commit at");
    say_when(out, when);
    put_comment(out, comment);
    out.put("\n");
}

fn say_rollback(out: &mut Text, n: u32) {
    say_counted(out, "rollback", u64::from(n));
}

fn say_up(out: &mut Text, levels: u32) {
    say(out, "up");
    say_number(out, u64::from(levels));
}

/// A command with its words.
pub(crate) fn say_command(out: &mut Text, command: &Command) {
    match command {
        Command::Configure(Mode::Shared) => say(out, "configure"),
        Command::Configure(Mode::Private) => say(out, "configure private"),
        Command::Configure(Mode::Exclusive) => say(out, "configure exclusive"),
        Command::ShowActive { words, form } => {
            say_words(out, show_active_as(*form), words.as_slice())
        }
        Command::ShowCommits => say(out, "show commits"),
        Command::ClearCommit => say(out, "clear commit"),
        Command::Logout => say(out, "log out"),
        Command::Edit(words) => say_words(out, "edit", words.as_slice()),
        Command::Up(levels) => say_up(out, *levels),
        Command::Top => say(out, "top"),
        Command::Exit => say(out, "exit"),
        Command::ExitAll => say(out, "exit all"),
        Command::Show { words, form } => say_words(out, show_as(*form), words.as_slice()),
        Command::Change(op) => say_change(out, op),
        Command::Load { way, text } => say_load(out, *way, text),
        Command::Rollback(n) => say_rollback(out, *n),
        Command::CheckOnly => say(out, "commit check"),
        Command::Commit {
            minutes,
            comment,
            quit,
        } => say_commit(out, *minutes, comment, *quit),
        Command::CommitAt { when, comment } => say_commit_at(out, *when, comment),
        Command::Update => say(out, "update"),
        Command::Status => say(out, "status"),
    }
}
