//! What is said on standard error of a run that did not go as it was asked.

use service::StartWhy0;
use std::alloc::{AllocError, Global};
use stored_ledger::StartWhy;

/// What resulted from a run: its status, why its start was refused, if it was, and whether another service had the journal, so that
/// nothing was begun.
#[derive(Clone, Copy)]
pub struct Came {
    pub status: u8,
    pub why: StartWhy0,
    pub in_use: bool,
}

fn push_digest(text: &mut String, digest: &[u8; 32]) -> Result<(), AllocError> {
    for byte in digest {
        write!(text, "{byte:02x}")?;
    }
    Ok(())
}

fn damage_text(
    alloc: Global,
    offset: u64,
    kept: &[u8; 32],
    computed: &[u8; 32],
) -> Result<String, AllocError> {
    let mut text = format!(in alloc; "confd: damaged record at {offset}: kept ")?;
    push_digest(&mut text, kept)?;
    text.push_str(", computed ")?;
    push_digest(&mut text, computed)?;
    Ok(text)
}

/// Why a start was refused.
fn why_text(alloc: Global, why: &StartWhy) -> Result<String, AllocError> {
    match why {
        StartWhy::NotAJournal => "confd: not a journal".to_string(alloc),
        StartWhy::Exists => "confd: journal exists".to_string(alloc),
        StartWhy::DiskFault => "confd: disk fault".to_string(alloc),
        StartWhy::NoMemory => "confd: out of memory".to_string(alloc),
        StartWhy::Damaged {
            offset,
            kept,
            computed,
        } => damage_text(alloc, *offset, kept, computed),
        StartWhy::BadRecord { offset } => { format!(in alloc; "confd: bad record at {offset}") }
    }
}

/// What a status says where no start was refused: nothing where all went well, or where a session alone failed.
fn status_text(status: u8) -> Option<&'static str> {
    match status {
        1 => Some("confd: usage: confd serve|init|check|gen PLACE [USER:FILE ..]"),
        4 => Some("confd: disk fault"),
        9 => Some("confd: out of memory"),
        _ => None,
    }
}

/// The line that says why a run did not go as it was asked, if there is one.
pub fn line_of(alloc: Global, came: &Came) -> Result<Option<String>, AllocError> {
    if came.in_use {
        return Ok(Some("confd: journal in use".to_string(alloc)?));
    }
    match &came.why {
        StartWhy0::Why(why) => Ok(Some(why_text(alloc, why)?)),
        StartWhy0::None => match status_text(came.status) {
            Some(text) => Ok(Some(text.to_string(alloc)?)),
            None => Ok(None),
        },
    }
}
