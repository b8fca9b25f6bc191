//! The text of a fault of a JSON text, written piece by piece.

ghost use Rattle.std.specs.Prelude.{◌≤◌, ◌∷◌, ◌++◌, [], OnErr};
ghost use Rattle.cfg_base.specs.Counts.{Rose};
ghost use Rattle.io_edge.specs.Wrote.{Wrote};
ghost use Rattle.reply_text.specs.declared.fault.ShellFault.TheVariants.{Json};
ghost use Rattle.reply_text.specs.Texts.{message_of_json, text_of_fault};

use crate::writing::put_told;
use io_edge::{PutFailed, Sink, put_all};
use json_text::JsonFault;

fn put_json_message<K: Sink>(sink: &mut K, fault: &JsonFault) -> Result<(), PutFailed>
    ensures wrote { Wrote result (message_of_json fault.now) (K.view sink.old).held (K.view sink.new).held }
    ensures cause { OnErr result (Rose (K.view sink.old).faults (K.view sink.new).faults) }
    ensures later { (K.view sink.old).faults ≤ (K.view sink.new).faults }
{
    match fault {
        JsonFault::NotJson => put_all(sink, b"not json"),
        JsonFault::Unknown(path) => put_told(sink, b"unknown statement: ", path),
        JsonFault::BadValue(path) => put_told(sink, b"bad value: ", path),
        JsonFault::Form(path) => put_told(sink, b"wrong form: ", path),
        JsonFault::TooMany => put_all(sink, b"more than 16384 statements"),
    }
}

fn put_json_line<K: Sink>(sink: &mut K, fault: &JsonFault) -> Result<(), PutFailed>
    ensures wrote { Wrote result (message_of_json fault.now ++ 10 ∷ []) (K.view sink.old).held (K.view sink.new).held }
    ensures cause { OnErr result (Rose (K.view sink.old).faults (K.view sink.new).faults) }
    ensures later { (K.view sink.old).faults ≤ (K.view sink.new).faults }
{
    match put_json_message(sink, fault) {
        Ok(()) => put_all(sink, b"\n"),
        Err(failed) => Err(failed),
    }
}

/// Writes the line of a fault of a JSON text.
pub(crate) fn put_json_fault<K: Sink>(sink: &mut K, fault: &JsonFault) -> Result<(), PutFailed>
    ensures wrote { Wrote result (text_of_fault (Json fault.now)) (K.view sink.old).held (K.view sink.new).held }
    ensures cause { OnErr result (Rose (K.view sink.old).faults (K.view sink.new).faults) }
    ensures later { (K.view sink.old).faults ≤ (K.view sink.new).faults }
{
    match put_all(sink, b"error: json: ") {
        Ok(()) => put_json_line(sink, fault),
        Err(failed) => Err(failed),
    }
}
