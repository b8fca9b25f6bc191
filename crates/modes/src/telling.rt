ghost use Rattle.modes.specs.Modes.{IsTold};

use io_edge::{PutFailed, Sink, put_all};

/// Writes a text whole, with status 0; or a part of it, with status 6, where the sink fails.
pub fn tell<K: Sink>(sink: &mut K, text: &[u8]) -> u8
    ensures { IsTold text.now (K.view sink.old) (K.view sink.new) result }
{
    match put_all(sink, text) {
        Ok(()) => 0,
        Err(PutFailed) => 6,
    }
}
