//! What a door gave: its turn, its text, and how the session reads on after it.

ghost use Rattle.std.specs.Prelude.{◌≡◌, ◌≤◌, ◌++◌, OnErr, is_ok};
ghost use Rattle.cfg_base.specs.Counts.{Rose};
ghost use Rattle.io_edge.specs.Wrote.{Wrote};
ghost use Rattle.session_shell.specs.Exchange.{after_given, after_reply, is_dry, kept_turn, seen_turn, text_by, text_of_given, text_of_synced_turn, turn_of_given};
ghost use Rattle.session_shell.specs.Steps.{how_next, is_end, is_out};

use crate::door::{Given0, SyncedTurn};
use crate::json_show::Manner;
use crate::reading::Reading;
use crate::turn::{How, Turn};
use cfg_base::Moment;
use config_core::Reply;
use io_edge::{Line, PutFailed, Sink, put_all};
use reply_text::{put_denied, put_no_memory, put_reply, put_synced, put_unready};

/// Whether memory for JSON was wanting.
fn is_dry(manner: &Manner) -> bool
    ensures { result ≡ is_dry manner.now }
{
    matches!(manner, Manner::Dry)
}

fn kept_turn(manner: &Manner, place: u64) -> Turn
    ensures { result ≡ kept_turn manner.now place }
{
    match manner {
        Manner::Dry => Turn::KeptDry(place),
        Manner::Synchronized(synced) => Turn::KeptSynced {
            place,
            synced: *synced,
        },
        Manner::Plain | Manner::Json(_) | Manner::NoJson | Manner::NoCommit => Turn::Kept(place),
    }
}

fn seen_turn(dry: bool, front: u64, moment: Moment) -> Turn
    ensures { result ≡ seen_turn dry front moment }
{
    if dry {
        Turn::SeenDry { front, moment }
    } else {
        Turn::Seen { front, moment }
    }
}

/// The turn of what was given at a moment.
pub(crate) fn turn_of(moment: Moment, given: &Given0, manner: &Manner) -> Turn
    ensures { result ≡ turn_of_given manner.now moment given.now }
{
    match given {
        Given0::Kept { place, reply: _ } => kept_turn(manner, *place),
        Given0::Seen { front, reply: _ } => seen_turn(is_dry(manner), *front, moment),
        Given0::Denied { front, right } => Turn::Denied {
            front: *front,
            right: *right,
            moment,
        },
        Given0::Unready { front } => Turn::Unready {
            front: *front,
            moment,
        },
        Given0::NoMemory => Turn::NoMemory,
    }
}

fn follow_reply(reading: &mut Reading, reply: &Reply)
    ensures { reading.new ≡ after_reply reading.old reply.now }
{
    match reply {
        Reply::LoggedOut => *reading = Reading::Out,
        Reply::Entered(_) => *reading = Reading::Configuring,
        Reply::Left
        | Reply::Committed {
            minutes: _,
            quit: true,
        } => *reading = Reading::Operational,
        Reply::Done
        | Reply::Text(_)
        | Reply::Loaded
        | Reply::Checked
        | Reply::Committed {
            minutes: _,
            quit: false,
        }
        | Reply::Scheduled(_)
        | Reply::ClearedCommit
        | Reply::Refused(_) => {}
    }
}

fn follow(reading: &mut Reading, given: &Given0)
    ensures { reading.new ≡ after_given reading.old given.now }
{
    match given {
        Given0::Kept { place: _, reply } => follow_reply(reading, reply),
        Given0::Seen { .. } | Given0::NoMemory => {}
        Given0::Denied { .. } | Given0::Unready { .. } => {}
    }
}

fn put_own<K: Sink>(sink: &mut K, given: &Given0) -> Result<(), PutFailed>
    ensures wrote { Wrote result (text_of_given given.now) (K.view sink.old).held (K.view sink.new).held }
    ensures cause { OnErr result (Rose (K.view sink.old).faults (K.view sink.new).faults) }
    ensures later { (K.view sink.old).faults ≤ (K.view sink.new).faults }
{
    match given {
        Given0::Kept { reply, .. } | Given0::Seen { reply, .. } => put_reply(sink, reply),
        Given0::Denied { front: _, right } => put_denied(sink, *right),
        Given0::Unready { front: _ } => put_unready(sink),
        Given0::NoMemory => put_no_memory(sink),
    }
}

fn put_synced_turn<K: Sink>(sink: &mut K, synced: SyncedTurn) -> Result<(), PutFailed>
    ensures wrote { Wrote result (text_of_synced_turn synced) (K.view sink.old).held (K.view sink.new).held }
    ensures cause { OnErr result (Rose (K.view sink.old).faults (K.view sink.new).faults) }
    ensures later { (K.view sink.old).faults ≤ (K.view sink.new).faults }
{
    match synced {
        SyncedTurn::Synced(synced) => put_synced(sink, synced),
        SyncedTurn::NoMemory => put_no_memory(sink),
    }
}

fn put_synchronized<K: Sink>(
    sink: &mut K,
    given: &Given0,
    synced: SyncedTurn,
) -> Result<(), PutFailed>
    ensures wrote { Wrote result (text_of_given given.now ++ text_of_synced_turn synced) (K.view sink.old).held (K.view sink.new).held }
    ensures cause { OnErr result (Rose (K.view sink.old).faults (K.view sink.new).faults) }
    ensures later { (K.view sink.old).faults ≤ (K.view sink.new).faults }
{
    match put_own(sink, given) {
        Ok(()) => put_synced_turn(sink, synced),
        Err(failed) => Err(failed),
    }
}

fn put_given<K: Sink>(sink: &mut K, given: &Given0, manner: &Manner) -> Result<(), PutFailed>
    ensures wrote { Wrote result (text_by manner.now given.now) (K.view sink.old).held (K.view sink.new).held }
    ensures cause { OnErr result (Rose (K.view sink.old).faults (K.view sink.new).faults) }
    ensures later { (K.view sink.old).faults ≤ (K.view sink.new).faults }
{
    match manner {
        Manner::Plain | Manner::NoJson | Manner::NoCommit => put_own(sink, given),
        Manner::Synchronized(synced) => put_synchronized(sink, given, *synced),
        Manner::Json(text) => put_all(sink, text.as_slice()),
        Manner::Dry => put_no_memory(sink),
    }
}

/// Writes what was given, and reads on after it.
pub(crate) fn answer<K: Sink>(
    sink: &mut K,
    reading: &mut Reading,
    given: Given0,
    manner: Manner,
) -> Result<(), PutFailed>
    ensures reading { reading.new ≡ after_given reading.old given }
    ensures wrote { Wrote result (text_by manner given) (K.view sink.old).held (K.view sink.new).held }
    ensures cause { OnErr result (Rose (K.view sink.old).faults (K.view sink.new).faults) }
    ensures later { (K.view sink.old).faults ≤ (K.view sink.new).faults }
{
    follow(reading, &given);
    put_given(sink, &given, &manner)
}

/// Lets go of what was given without writing it.
pub(crate) fn let_go(_given: Given0) {}

pub(crate) fn is_out(reading: &Reading) -> bool
    ensures { result ≡ is_out reading.now }
{
    matches!(reading, Reading::Out)
}

fn is_end(line: &Line) -> bool
    ensures { result ≡ is_end line.now }
{
    matches!(line, Line::End)
}

/// How a session ends by a line, after its text was written or not.
pub(crate) fn how_next(line: &Line, reading: &Reading, put: Result<(), PutFailed>) -> Option<How>
    ensures { result ≡ how_next line.now reading.now (is_ok put) }
{
    match put {
        Err(PutFailed) => Some(How::SinkFault),
        Ok(()) if is_out(reading) || is_end(line) => Some(How::Clean),
        Ok(()) => None,
    }
}
