//! The texts of the modes, put together in memory.

ghost use Rattle.std.specs.Prelude.{◌≡◌, ◌++◌, IfOk, OnOk, decimal};
ghost use Rattle.modes.specs.Texts.{check_text, deadline_line, gen_text, number_line};

use cfg_base::{Bytes, NoMemory};
use commit_ledger::Ledger;
use itoa::Buffer;
use std::alloc::Global;

/// Puts bytes at the end of a text.
pub(crate) fn push_bytes(text: &mut Vec<u8>, bytes: &[u8]) -> Result<(), NoMemory>
    ensures { OnOk result (text.new.items ≡ text.old.items ++ bytes.now) }
{
    match text.extend_from_slice(bytes) {
        Ok(()) => Ok(()),
        Err(_) => Err(NoMemory),
    }
}

/// Puts a number at the end of a text.
pub(crate) fn push_number(text: &mut Vec<u8>, number: u64) -> Result<(), NoMemory>
    ensures { OnOk result (text.new.items ≡ text.old.items ++ decimal number) }
{
    let mut digits = Buffer::new();
    push_bytes(text, digits.format(number).as_bytes())
}

/// Puts a name and a number after it at the end of a text.
pub(crate) fn push_named(text: &mut Vec<u8>, name: &[u8], number: u64) -> Result<(), NoMemory>
    ensures { OnOk result (text.new.items ≡ text.old.items ++ (name.now ++ decimal number)) }
{
    push_bytes(text, name)?;
    push_number(text, number)
}

fn push_line(text: &mut Vec<u8>, name: &[u8], number: u64) -> Result<(), NoMemory>
    ensures { OnOk result (text.new.items ≡ text.old.items ++ number_line name.now number) }
{
    push_named(text, name, number)?;
    push_bytes(text, b"\n")
}

fn push_deadline(text: &mut Vec<u8>, ledger: &Ledger) -> Result<(), NoMemory>
    ensures { OnOk result (text.new.items ≡ text.old.items ++ deadline_line ledger.now.pending) }
{
    match ledger.pending() {
        Some(pending) => push_line(text, b"deadline ", pending.deadline),
        None => push_bytes(text, b"deadline none\n"),
    }
}

/// What is reported of a list: how many entries it has, how many commits are kept, and the deadline of an unconfirmed run.
pub(crate) fn check_text(alloc: Global, ledger: &Ledger) -> Result<Bytes, NoMemory>
    ensures { IfOk result (λ text. text ≡ check_text ledger.now) }
{
    let mut text = Vec::new(alloc);
    push_line(&mut text, b"entries ", ledger.count())?;
    push_line(&mut text, b"commits ", u64::from(ledger.kept()))?;
    push_deadline(&mut text, ledger)?;
    Ok(Bytes::from(text))
}

/// What is reported of a configuration that was made: the number of its statements, of the paths of its expansion and of the bytes
/// of its text, and how many commits are kept.
pub fn gen_text(
    alloc: Global,
    statements: u32,
    expanded: u32,
    bytes: u64,
    commits: u32,
) -> Result<Bytes, NoMemory>
    ensures { IfOk result (λ text. text ≡ gen_text statements expanded bytes commits) }
{
    let mut text = Vec::new(alloc);
    push_line(&mut text, b"statements ", u64::from(statements))?;
    push_line(&mut text, b"expanded ", u64::from(expanded))?;
    push_line(&mut text, b"bytes ", bytes)?;
    push_line(&mut text, b"commits ", u64::from(commits))?;
    Ok(Bytes::from(text))
}
