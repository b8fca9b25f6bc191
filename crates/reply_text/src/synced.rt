//! The line for what became of a commit that is synchronized.

ghost use Rattle.std.specs.Prelude.{◌≤◌, ◌++◌, OnErr, codes, decimal};
ghost use Rattle.cfg_base.specs.Counts.{Rose};
ghost use Rattle.commit_ledger.specs.declared.synced.Synced.TheVariants.{Behind};
ghost use Rattle.io_edge.specs.Wrote.{Wrote};
ghost use Rattle.reply_text.specs.Texts.{text_of_synced};

use crate::writing::put_number_behind;
use commit_ledger::Synced;
use io_edge::{PutFailed, Sink, put_all};

fn put_of_count<K: Sink>(sink: &mut K, count: u64) -> Result<(), PutFailed>
    ensures wrote { Wrote result (codes " of " ++ (decimal count ++ codes " entries\n")) (K.view sink.old).held (K.view sink.new).held }
    ensures cause { OnErr result (Rose (K.view sink.old).faults (K.view sink.new).faults) }
    ensures later { (K.view sink.old).faults ≤ (K.view sink.new).faults }
{
    match put_number_behind(sink, b" of ", count) {
        Ok(()) => put_all(sink, b" entries\n"),
        Err(failed) => Err(failed),
    }
}

fn put_behind<K: Sink>(sink: &mut K, acknowledged: u64, count: u64) -> Result<(), PutFailed>
    ensures wrote { Wrote result (text_of_synced (Behind acknowledged count)) (K.view sink.old).held (K.view sink.new).held }
    ensures cause { OnErr result (Rose (K.view sink.old).faults (K.view sink.new).faults) }
    ensures later { (K.view sink.old).faults ≤ (K.view sink.new).faults }
{
    match put_number_behind(sink, b"warning: backup has ", acknowledged) {
        Ok(()) => put_of_count(sink, count),
        Err(failed) => Err(failed),
    }
}

/// Writes the line for what is known of the backup's list after a commit.
pub fn put_synced<K: Sink>(sink: &mut K, synced: Synced) -> Result<(), PutFailed>
    ensures wrote { Wrote result (text_of_synced synced) (K.view sink.old).held (K.view sink.new).held }
    ensures cause { OnErr result (Rose (K.view sink.old).faults (K.view sink.new).faults) }
    ensures later { (K.view sink.old).faults ≤ (K.view sink.new).faults }
{
    match synced {
        Synced::All { count: _ } => put_all(sink, b"backup synchronized\n"),
        Synced::Behind {
            acknowledged,
            count,
        } => put_behind(sink, acknowledged, count),
        Synced::Alone => put_all(sink, b"warning: no backup engine\n"),
    }
}
