//! The lines for commands that were not carried out: a right was missing, or a disk failed before.

ghost use Rattle.std.specs.Prelude.{◌≤◌, OnErr};
ghost use Rattle.cfg_base.specs.Counts.{Rose};
ghost use Rattle.io_edge.specs.Wrote.{Wrote};
ghost use Rattle.reply_text.specs.Texts.{text_of_denial, unready_text};

use crate::refusal::put_refusal;
use crate::writing::put_both;
use access_rules::Right;
use config_core::Refusal;
use io_edge::{PutFailed, Sink, put_all};

/// Writes the line for a command that its user lacks a right for.
pub fn put_denied<K: Sink>(sink: &mut K, right: Right) -> Result<(), PutFailed>
    ensures wrote { Wrote result (text_of_denial right) (K.view sink.old).held (K.view sink.new).held }
    ensures cause { OnErr result (Rose (K.view sink.old).faults (K.view sink.new).faults) }
    ensures later { (K.view sink.old).faults ≤ (K.view sink.new).faults }
{
    match put_all(sink, b"error: permission denied: ") {
        Ok(()) => put_both(sink, right.word(), b"\n"),
        Err(failed) => Err(failed),
    }
}

/// Writes the line for a command for which a disk failed before it was asked.
pub fn put_unready<K: Sink>(sink: &mut K) -> Result<(), PutFailed>
    ensures wrote { Wrote result (unready_text) (K.view sink.old).held (K.view sink.new).held }
    ensures cause { OnErr result (Rose (K.view sink.old).faults (K.view sink.new).faults) }
    ensures later { (K.view sink.old).faults ≤ (K.view sink.new).faults }
{
    put_refusal(sink, &Refusal::DiskFault)
}
