//! One session, from its ends to its turns.

ghost use Rattle.std.specs.Prelude.{◌≡◌, IfOk, IfErr};
ghost use Rattle.session_shell.specs.Opened.{end_view};
ghost use Rattle.session_shell.specs.Transcript.{IsSession};

use crate::door::Door;
use crate::end::{End, Ended, NoSession};
use crate::serving::{Parts, Serving};
use crate::turn::{How, Turn, TurnList};
use cfg_base::Limits;
use io_edge::{Clock, Sink, Source};
use std::alloc::Global;
use std::marker::Model;
use std::sync::Wait;
use trace_list::Trace;

/// A session before its first line: its number, its ends, and room for the turn of its last logout.
pub struct Session<S, K, C> {
    alloc: Global,
    number: u32,
    end: End<S, K, C>,
    limits: Limits,
    turns: Trace<Turn>,
}

impl<S, K, C> Model for Session<S, K, C> {
    ghost use Rattle.std.specs.Prelude.{◌≡◌, ◌<◌, []};
    ghost use Rattle.session_shell.specs.Opened.{NewSessionView};

    ghost Value = { NewSessionView S K C };

    ghost view = { λ s. record { number = s.number; end = s.end; limit = s.limits.input } };

    ghost invariant = { λ s. (s.turns.items ≡ []) × (0 < s.turns.spare) };
}

impl<S, K, C> Session<S, K, C> {
    /// A session of that number over its ends, of whose source at most `limits.input` bytes are taken. Its turns are kept as
    /// values, or aren't. Without memory for the turn of its last logout there is none.
    pub fn new(
        alloc: Global,
        number: u32,
        end: End<S, K, C>,
        limits: Limits,
        keeps: bool,
    ) -> Result<Session<S, K, C>, NoSession<S, K, C>>
        ensures ok { IfOk result (λ session. session ≡ record { number = number; end = end; limit = limits.input }) }
        ensures err { IfErr result (λ refused. refused.end ≡ end) }
    {
        let mut turns = Trace::new(alloc, keeps);
        match turns.reserve(1) {
            Ok(()) => Ok(Session {
                alloc,
                number,
                end,
                limits,
                turns,
            }),
            Err(_) => Err(NoSession { end }),
        }
    }

    /// Runs the session to its end, and hands its ends back.
    pub fn run<D: Door, R: Wait>(self, rt: &R, door: &mut D) -> Ended<S, K, C>
    where
        S: Source,
        K: Sink,
        C: Clock,
        ensures session { IsSession D.follows D.syncs self.limit result.how result.turns (end_view S.view K.view C.coming self.end)
            (end_view S.view K.view C.coming result.end) door.old door.new }
        ensures number { result.number ≡ self.number }
    {
        let Session {
            alloc,
            number,
            end,
            limits,
            turns,
        } = self;
        let End {
            user,
            source,
            sink,
            clock,
        } = end;
        let mut serving = Serving::new(alloc, source, sink, clock, turns, limits);
        let how = serving.serve(rt, door);
        serving.finish(rt, door, how);
        let Parts {
            source,
            sink,
            clock,
            turns,
        } = serving.into_parts();
        Ended {
            number,
            how,
            end: End {
                user,
                source,
                sink,
                clock,
            },
            turns: TurnList::from(turns),
        }
    }
}
