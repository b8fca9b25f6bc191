//! Calls of the entries of a list of commits, and of what the records of a journal read as.

ghost use Rattle.std.specs.Prelude.{◌≡◌, ◌≤◌, length, IfOk, IsTrue};
ghost use Rattle.commit_ledger.specs.Payload.{HasShortText, most_text, text_of};

use cfg_base::{Bytes, Moment, NoMemory, Word};
use cfg_tree::Tree;
use commit_check::Judge;
use commit_ledger::{
    Cleared, Commit, Confirm, Entry, Ledger, LedgerFault, Scheduled, Via, payload_of,
};
use curly_print::text_len;
use record_code::{Payloads, Placed};
use script_lines::{
    Arg, Fault, Text, number, say, say_bytes, say_counted, say_number, say_pending, say_text,
    small_number, user_of,
};
use std::alloc::Global;

/// The most bytes that the text of a commit has.
const MAX_TEXT: u64 = 1_048_576;

#[tactic(auto, unfolding(commit_ledger::specs::Payload::text_of))]
fn has_short_text(tree: &Tree) -> bool
    ensures { IsTrue result → length (text_of tree.now) ≤ most_text }
{
    text_len(tree) <= MAX_TEXT
}

fn via_of(arg: &[u8]) -> Result<Via, Fault> {
    match arg {
        b"cli" => Ok(Via::Cli),
        b"other" => Ok(Via::Other),
        _ => Err(Fault::Script("a commit came by cli or other")),
    }
}

/// NUMBER USER cli|other SECONDS COMMENT MINUTES: a commit of the script's tree
fn commit_of(alloc: Global, tree: &Tree, args: &[Arg]) -> Result<Commit, Fault> {
    let [count, user, via, moment, comment, minutes] = args else {
        return Err(Fault::Script("commit NUMBER USER cli|other SECONDS COMMENT MINUTES"));
    };
    Ok(Commit {
        number: number(count)?,
        user: user_of(alloc, user)?,
        via: via_of(via)?,
        moment: Moment::of(number(moment)?),
        comment: Word::of(alloc, comment)?,
        tree: tree.copy()?,
        minutes: small_number(minutes)?,
    })
}

/// NUMBER USER SECONDS
fn confirm_of(alloc: Global, args: &[Arg]) -> Result<Confirm, Fault> {
    let [count, user, moment] = args else {
        return Err(Fault::Script("confirm NUMBER USER SECONDS"));
    };
    Ok(Confirm {
        number: number(count)?,
        user: user_of(alloc, user)?,
        moment: Moment::of(number(moment)?),
    })
}

/// NUMBER USER SECONDS AT COMMENT: the script's tree, set for that time
fn scheduled_of(alloc: Global, tree: &Tree, args: &[Arg]) -> Result<Scheduled, Fault> {
    let [count, user, moment, at, comment] = args else {
        return Err(Fault::Script("scheduled NUMBER USER SECONDS AT COMMENT"));
    };
    Ok(Scheduled {
        number: number(count)?,
        user: user_of(alloc, user)?,
        moment: Moment::of(number(moment)?),
        at: Moment::of(number(at)?),
        comment: Word::of(alloc, comment)?,
        tree: tree.copy()?,
    })
}

/// NUMBER USER SECONDS
fn cleared_of(alloc: Global, args: &[Arg]) -> Result<Cleared, Fault> {
    let [count, user, moment] = args else {
        return Err(Fault::Script("cleared NUMBER USER SECONDS"));
    };
    Ok(Cleared {
        number: number(count)?,
        user: user_of(alloc, user)?,
        moment: Moment::of(number(moment)?),
    })
}

fn entry_of(alloc: Global, tree: &Tree, args: &[Arg]) -> Result<Entry, Fault> {
    match args {
        [kind, fields @ ..] if kind.as_slice() == b"commit".as_slice() => {
            Ok(Entry::Commit(commit_of(alloc, tree, fields)?))
        }
        [kind, fields @ ..] if kind.as_slice() == b"confirm".as_slice() => {
            Ok(Entry::Confirm(confirm_of(alloc, fields)?))
        }
        [kind, fields @ ..] if kind.as_slice() == b"scheduled".as_slice() => {
            Ok(Entry::Scheduled(scheduled_of(alloc, tree, fields)?))
        }
        [kind, fields @ ..] if kind.as_slice() == b"cleared".as_slice() => {
            Ok(Entry::Cleared(cleared_of(alloc, fields)?))
        }
        _ => Err(Fault::Script("an entry is a commit, confirm, scheduled or cleared")),
    }
}

fn is_short(entry: &Entry) -> bool
    ensures { IsTrue result → HasShortText entry.now }
{
    match entry {
        Entry::Commit(commit) => has_short_text(&commit.tree),
        Entry::Scheduled(waiting) => has_short_text(&waiting.tree),
        Entry::Confirm(_) | Entry::Cleared(_) => true,
    }
}

fn say_payload(out: &mut Text, bytes: &Bytes) {
    say_number(out, bytes.as_slice().len() as u64);
    say_bytes(out, "bytes", bytes.as_slice());
}

/// payload ENTRY: the bytes that a record keeps of it
fn ask_payload(alloc: Global, tree: &Tree, args: &[Arg], out: &mut Text) -> Result<(), Fault> {
    let entry = entry_of(alloc, tree, args)?;
    if !is_short(&entry) {
        return Err(Fault::Script("the text of a commit has at most 1048576 bytes"));
    }
    match payload_of(alloc, &entry) {
        Ok(bytes) => say_payload(out, &bytes),
        Err(NoMemory) => out.lacks_memory(),
    }
    Ok(())
}

/// record OFFSET KIND BYTES
fn add_record(alloc: Global, records: &mut Payloads, args: &[Arg]) -> Result<(), Fault> {
    let [offset, kind, bytes] = args else {
        return Err(Fault::Script("record OFFSET KIND BYTES"));
    };
    let Ok(kind) = u8::try_from(number(kind)?) else {
        return Err(Fault::Script("a kind is a number below 256"));
    };
    records.push(Placed {
        offset: number(offset)?,
        kind,
        payload: Bytes::from(Vec::from_slice(alloc, bytes)?),
    })?;
    Ok(())
}

fn say_ledger(alloc: Global, out: &mut Text, ledger: &Ledger) {
    say_counted(out, "entries", ledger.count());
    match ledger.pending() {
        Some(pending) => say_pending(out, pending.target, pending.deadline),
        None => say(out, "none"),
    }
    if let Some(waiting) = ledger.scheduled() {
        say_counted(out, "scheduled at", waiting.at.seconds());
    }
    match ledger.history_lines(alloc) {
        Ok(lines) => say_text(out, lines.as_slice()),
        Err(NoMemory) => out.lacks_memory(),
    }
}

/// ledger_of: what the records read as
fn ask_ledger(alloc: Global, records: &Payloads, out: &mut Text) {
    match Ledger::of(alloc, records, &Judge::of(alloc)) {
        Ok(ledger) => say_ledger(alloc, out, &ledger),
        Err(LedgerFault::BadRecord { offset }) => say_counted(out, "bad record at", offset),
        Err(LedgerFault::NoMemory) => out.lacks_memory(),
    }
}

/// The records that are read as a list of commits.
#[derive(Drop)]
pub(crate) struct Records {
    kept: Payloads,
}

impl Records {
    pub(crate) fn new(alloc: Global) -> Records {
        Records {
            kept: Payloads::new(alloc),
        }
    }

    /// What the records that are kept read as; none is kept then.
    fn read(&mut self, alloc: Global, out: &mut Text) -> Result<(), Fault> {
        ask_ledger(alloc, &self.kept, out);
        self.kept = Payloads::new(alloc);
        Ok(())
    }

    /// Answers a call of entries and records, where it is one.
    pub(crate) fn ask(
        &mut self,
        alloc: Global,
        tree: &Tree,
        name: &str,
        args: &[Arg],
        out: &mut Text,
    ) -> Option<Result<(), Fault>> {
        Some(match name {
            "record" => add_record(alloc, &mut self.kept, args),
            "ledger_of" => self.read(alloc, out),
            "payload" => ask_payload(alloc, tree, args, out),
            _ => return None,
        })
    }
}
