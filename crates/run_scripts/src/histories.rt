//! The turns of lines, and histories.

use crate::asking::say_command;
use crate::runs::say_session;
use cfg_base::Moment;
use commit_ledger::Synced;
use config_core::{Event, Outcome};
use reply_text::ShellFault;
use script_lines::{Text, say, say_bytes, say_counted};
use session_history::{Happened, History};
use session_shell::{SyncedTurn, Turn, TurnList};

fn say_seen(out: &mut Text, name: &str, front: u64, moment: Moment) {
    out.put("= turn ");
    out.put(name);
    out.put(" ");
    out.put_number(front);
    out.put(" ");
    out.put_number(moment.seconds());
    out.put("\n");
}

fn say_denied(out: &mut Text, front: u64, right: &[u8], moment: Moment) {
    say_seen(out, "denied", front, moment);
    say_bytes(out, "lacking", right);
}

/// So many of so many entries are known to be in the backup's list.
fn say_behind(out: &mut Text, acknowledged: u64, count: u64) {
    out.put("= behind ");
    out.put_number(acknowledged);
    out.put(" of ");
    out.put_number(count);
    out.put("\n");
}

/// The event of a commit that was to be synchronized, and what is known of the backup's list.
fn say_synced(out: &mut Text, place: u64, synced: SyncedTurn) {
    say_counted(out, "turn synchronize event", place);
    match synced {
        SyncedTurn::Synced(Synced::All { count }) => say_counted(out, "all", count),
        SyncedTurn::Synced(
            Synced::Behind {
                acknowledged,
                count,
            },
        ) => say_behind(out, acknowledged, count),
        SyncedTurn::Synced(Synced::Alone) => say(out, "alone"),
        SyncedTurn::NoMemory => say(out, "no memory"),
    }
}

fn say_local(out: &mut Text, fault: &ShellFault) {
    match fault {
        ShellFault::Syntax(place) => {
            say_counted(out, "turn syntax error at byte", u64::from(*place));
        }
        ShellFault::LineTooLong => say(out, "turn line too long"),
        ShellFault::TextTooLong => say(out, "turn text too long"),
        ShellFault::Json(_) => say(out, "turn json"),
    }
}

fn say_turn(out: &mut Text, turn: &Turn) {
    match turn {
        Turn::Kept(place) => say_counted(out, "turn event", *place),
        Turn::KeptDry(place) => say_counted(out, "turn dry event", *place),
        Turn::KeptSynced { place, synced } => say_synced(out, *place, *synced),
        Turn::Seen { front, moment } => say_seen(out, "seen", *front, *moment),
        Turn::SeenDry { front, moment } => say_seen(out, "dry seen", *front, *moment),
        Turn::Denied {
            front,
            right,
            moment,
        } => say_denied(out, *front, right.word(), *moment),
        Turn::Unready { front, moment } => say_seen(out, "unready", *front, *moment),
        Turn::Local(fault) => say_local(out, fault),
        Turn::NoMemory => say(out, "turn no memory"),
    }
}

/// The turns of a session that keeps them.
fn say_turns(out: &mut Text, turns: &TurnList) {
    if let Some(turns) = turns.values() {
        for turn in turns {
            say_turn(out, turn);
        }
    }
}

fn say_event(out: &mut Text, happened: &Happened) {
    out.put("= event of ");
    out.put_number(u64::from(happened.caller));
    out.put(" at ");
    out.put_number(happened.moment.seconds());
    out.put(" calls ");
    out.put_number(happened.calls.a);
    out.put(" ");
    out.put_number(happened.calls.b);
    out.put("\n");
    match &happened.event {
        Event::Settle(true) => say(out, "settle kept"),
        Event::Settle(false) => say(out, "settle lost"),
        Event::Revert => say(out, "revert"),
        Event::Carry => say(out, "carry"),
        Event::Command(command) => say_command(out, command),
    }
    if let Outcome::Fault = happened.outcome {
        say(out, "failing");
    }
}

/// The events of a history that keeps them.
fn say_events(out: &mut Text, history: &History) {
    if let Some(events) = history.events.values() {
        for happened in events {
            say_event(out, happened);
        }
    }
}

fn say_history(out: &mut Text, history: &History) {
    match &history.opening {
        Some(ledger) => say_counted(out, "opening entries", ledger.count()),
        None => say(out, "opening none"),
    }
    for user in history.users.as_slice() {
        say_bytes(out, "user", user.as_word().as_bytes());
    }
    say_events(out, history);
}

/// The turns of each session's lines, and the history.
pub(crate) fn say_happened(out: &mut Text, turns: &[TurnList], history: &History) {
    for (place, list) in turns.iter().enumerate() {
        say_session(out, turns.len(), place);
        say_turns(out, list);
    }
    say_history(out, history);
}
