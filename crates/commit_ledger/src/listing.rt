//! The list of commits as it is shown.

ghost use Rattle.std.specs.Prelude.{◌≡◌, ◌++◌, OnOk, IfOk, codes, decimal};
ghost use Rattle.commit_ledger.specs.Listing.{via_text, confirmed_text, comment_text, line_end, line_rest, lines_of, IsListing};

use crate::date::push_date;
use crate::entry::{Commit, Via};
use crate::ledger::Ledger;
use crate::text::{push_bytes, push_number, push_place};
use cfg_base::{Bytes, NoMemory};
use std::alloc::Global;

fn push_via(text: &mut Vec<u8>, via: Via) -> Result<(), NoMemory>
    ensures { OnOk result (text.new.items ≡ text.old.items ++ via_text via) }
{
    match via {
        Via::Cli => push_bytes(text, b" via cli"),
        Via::Other => push_bytes(text, b" via other"),
    }
}

fn push_confirmed(text: &mut Vec<u8>, minutes: u32) -> Result<(), NoMemory>
    ensures { OnOk result (text.new.items
        ≡ text.old.items ++ (codes " commit confirmed, rollback in " ++ (decimal minutes ++ codes " mins"))) }
{
    push_bytes(text, b" commit confirmed, rollback in ")?;
    push_number(text, minutes)?;
    push_bytes(text, b" mins")
}

fn push_minutes(text: &mut Vec<u8>, minutes: u32) -> Result<(), NoMemory>
    ensures { OnOk result (text.new.items ≡ text.old.items ++ confirmed_text minutes) }
{
    if minutes == 0 {
        Ok(())
    } else {
        push_confirmed(text, minutes)
    }
}

fn push_comment(text: &mut Vec<u8>, comment: &[u8]) -> Result<(), NoMemory>
    ensures { OnOk result (text.new.items ≡ text.old.items ++ comment_text comment.now) }
{
    if comment.is_empty() {
        return Ok(());
    }
    push_bytes(text, b"    ")?;
    push_bytes(text, comment)?;
    push_bytes(text, b"\n")
}

// What stands after the way in which a commit came.
fn push_rest(text: &mut Vec<u8>, commit: &Commit) -> Result<(), NoMemory>
    ensures { OnOk result (text.new.items ≡ text.old.items ++ line_rest commit.now) }
{
    push_minutes(text, commit.minutes)?;
    push_bytes(text, b"\n")?;
    push_comment(text, commit.comment.as_bytes())
}

fn push_end(text: &mut Vec<u8>, commit: &Commit) -> Result<(), NoMemory>
    ensures { OnOk result (text.new.items ≡ text.old.items ++ line_end commit.now) }
{
    push_bytes(text, b" UTC by ")?;
    push_bytes(text, commit.user.as_word().as_bytes())?;
    push_via(text, commit.via)?;
    push_rest(text, commit)
}

/// Puts the lines of a commit at the end of a text.
fn push_commit(text: &mut Vec<u8>, n: u32, commit: &Commit) -> Result<(), NoMemory>
    ensures { OnOk result (text.new.items ≡ text.old.items ++ lines_of n commit.now) }
{
    push_place(text, n)?;
    push_date(text, commit.moment)?;
    push_end(text, commit)
}

impl Ledger {
    /// The commits that are kept, the last one first, each with its rollback number: a line a commit, and one more for its
    /// comment. Times are in UTC.
    pub fn history_lines(&self, alloc: Global) -> Result<Bytes, NoMemory>
        ensures { IfOk result (IsListing self.now) }
    {
        let mut text = Vec::new(alloc);
        push_commit(&mut text, 0, &self.last)?;
        let older = self.older.len();
        for newer in 0..older {
            push_commit(&mut text, newer as u32 + 1, &self.older[older - 1 - newer])?;
        }
        Ok(Bytes::from(text))
    }
}
