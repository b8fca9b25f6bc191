//! Runs that serve no session: each has one end, and writes to its sink.

ghost use Rattle.std.specs.Prelude.{◌≡◌, ◌<◌, [], length};
ghost use Rattle.cfg_base.specs.declared.kind.Kind.TheVariants.{Number};
ghost use Rattle.cfg_values.specs.Number.{IsNumberWithin};
ghost use Rattle.cfg_values.specs.Spelling.{IsSpelling};
ghost use Rattle.command_line.specs.declared.asked.RunMode.TheVariants.{Init, Check, Gen};
ghost use Rattle.modes.specs.declared.did.StartWhy0.TheVariants.{None as NoWhy};
ghost use Rattle.service.specs.Modes.{IsGen, IsSinkAlone, RunsMode};
ghost use Rattle.service.specs.World.{Views, World, told_of, views, world_of};

use crate::closed::{Closed, no_history};
use crate::generating::{Generated, generate};
use cfg_base::{NoMemory, Users};
use command_line::Asked;
use disk_model::Disk;
use io_edge::{Beat, Clock, Sink, Source};
use modes::{Did, StartWhy0, check, init, number_of, tell};
use session_history::History;
use session_shell::End;
use session_threads::Ticker;
use std::alloc::Global;

/// A run that came to this.
fn closed<S, K, C, B, D>(
    alloc: Global,
    did: Did<D>,
    history: History,
    ends: Vec<End<S, K, C>>,
    ticker: Ticker<B, C>,
) -> Closed<S, K, C, B, D>
    ensures did { (result.status ≡ did.status) × (result.why ≡ did.why) × (result.disk_a ≡ did.a) × (result.disk_b ≡ did.b) }
    ensures rest { (result.ends ≡ ends) × (result.ticker ≡ ticker) × (result.history ≡ history) × (result.turns.items ≡ []) }
{
    Closed {
        status: did.status,
        why: did.why,
        ends,
        ticker,
        turns: Vec::new(alloc),
        history,
        disk_a: did.a,
        disk_b: did.b,
    }
}

/// Makes a list of commits on the disks.
pub(crate) fn run_init<S: Source, K: Sink, C: Clock, B: Beat, D: Disk>(
    alloc: Global,
    asked: Asked,
    ends: Vec<End<S, K, C>>,
    ticker: Ticker<B, C>,
    disk_a: D,
    disk_b: D,
) -> Closed<S, K, C, B, D>
    requires mode { asked.mode ≡ Init }
    requires one { length ends.items ≡ 1 }
    ensures { let see : Views _ _ _ = views S.view K.view C.coming B.coming D.view in
        let before : World _ _ _ = record { ends = ends.items; ticker = ticker; a = disk_a; b = disk_b } in
        RunsMode see IsSinkAlone asked before (world_of result) (told_of result) }
{
    let mut ends = ends;
    let mut end = ends.remove(0);
    let did = init(alloc, &mut end.sink, disk_a, disk_b, asked.limits);
    ends.push_reserved(end);
    closed(alloc, did, no_history(alloc), ends, ticker)
}

/// Reports what the list of commits on the disks has.
pub(crate) fn run_check<S: Source, K: Sink, C: Clock, B: Beat, D: Disk>(
    alloc: Global,
    asked: Asked,
    ends: Vec<End<S, K, C>>,
    ticker: Ticker<B, C>,
    disk_a: D,
    disk_b: D,
) -> Closed<S, K, C, B, D>
    requires mode { asked.mode ≡ Check }
    requires one { length ends.items ≡ 1 }
    ensures { let see : Views _ _ _ = views S.view K.view C.coming B.coming D.view in
        let before : World _ _ _ = record { ends = ends.items; ticker = ticker; a = disk_a; b = disk_b } in
        RunsMode see IsSinkAlone asked before (world_of result) (told_of result) }
{
    let mut ends = ends;
    let mut end = ends.remove(0);
    let did = check(alloc, &mut end.sink, disk_a, disk_b, asked.limits);
    ends.push_reserved(end);
    closed(alloc, did, no_history(alloc), ends, ticker)
}

/// Makes a configuration of so many interfaces, and reports what resulted.
fn tell_generated<K: Sink>(
    alloc: Global,
    sink: &mut K,
    count: u64,
    users: Users,
    keeps: bool,
) -> (u8, History)
    requires { 0 < length users }
    ensures { IsGen (sink.new ≡ sink.old) count users (K.view sink.old) (K.view sink.new) result.0 result.1 }
{
    match generate(alloc, count, users, keeps) {
        Ok(Generated { history, text }) => (tell(sink, text.as_slice()), history),
        Err(NoMemory) => (9, no_history(alloc)),
    }
}

/// The number of interfaces that a place says.
fn count_of(place: &[u8]) -> u64
    requires { IsSpelling (Number 1 3000) place.now }
    ensures { IsNumberWithin 1 3000 place.now result }
{
    number_of(place)
}

/// Makes a configuration of as many interfaces as the place says. The disks aren't called.
pub(crate) fn run_gen<S: Source, K: Sink, C: Clock, B: Beat, D: Disk>(
    alloc: Global,
    asked: Asked,
    keeps: bool,
    ends: Vec<End<S, K, C>>,
    ticker: Ticker<B, C>,
    disk_a: D,
    disk_b: D,
) -> Closed<S, K, C, B, D>
    requires mode { asked.mode ≡ Gen }
    requires one { length ends.items ≡ 1 }
    requires place { IsSpelling (Number 1 3000) asked.place }
    requires users { 0 < length asked.users }
    ensures { let see : Views _ _ _ = views S.view K.view C.coming B.coming D.view in
        let before : World _ _ _ = record { ends = ends.items; ticker = ticker; a = disk_a; b = disk_b } in
        RunsMode see IsSinkAlone asked before (world_of result) (told_of result) }
{
    let mut ends = ends;
    let mut end = ends.remove(0);
    let count = count_of(asked.place.as_bytes());
    let (status, history) = tell_generated(alloc, &mut end.sink, count, asked.users, keeps);
    ends.push_reserved(end);
    let did = Did {
        status,
        why: StartWhy0::None,
        a: disk_a,
        b: disk_b,
    };
    closed(alloc, did, history, ends, ticker)
}
