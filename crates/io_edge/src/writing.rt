ghost use Rattle.std.specs.Prelude.{◌≡◌, ◌≤◌, OnErr};
ghost use Rattle.cfg_base.specs.Counts.{Rose};
ghost use Rattle.io_edge.specs.Wrote.{Wrote};

use crate::ends::{Put, Sink};
use thiserror::Error;

/// The sink failed.
#[derive(Clone, Copy, Debug, PartialEq, Eq, Error)]
#[error("the sink failed")]
pub struct PutFailed;

/// Writes all the bytes, piece by piece.
pub fn put_all<K: Sink>(sink: &mut K, bytes: &[u8]) -> Result<(), PutFailed>
    ensures wrote { Wrote result bytes.now ((K.view sink.old).held) ((K.view sink.new).held) }
    ensures cause { OnErr result (Rose ((K.view sink.old).faults) ((K.view sink.new).faults)) }
    ensures later { (K.view sink.old).faults ≤ (K.view sink.new).faults }
{
    let mut at = 0;
    'pieces: while at < bytes.len() {
        let (_, rest) = bytes.split_at(at);
        match sink.write(rest) {
            Put::Took(count) => at += count,
            Put::Failed => return Err(PutFailed),
        }
    }
    Ok(())
}
