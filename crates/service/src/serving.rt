//! The top call: it does what its words ask, and hands everything back.

ghost use Rattle.std.specs.Prelude.{◌≡◌, ◌⊎◌, ◌≤◌, ℕ, List, [], length, Some};
ghost use Rattle.command_line.specs.Asked.{Asks};
ghost use Rattle.command_line.specs.declared.asked.Asked.{Asked};
ghost use Rattle.disk_model.specs.Pair.{pair_of};
ghost use Rattle.modes.specs.declared.did.StartWhy0.TheVariants.{Why};
ghost use Rattle.modes.specs.Modes.{start_status};
ghost use Rattle.config_db.specs.View.{opened};
ghost use Rattle.session_shell.specs.Opened.{end_view};
ghost use Rattle.session_threads.specs.Results.{users_of_ends};
ghost use Rattle.session_threads.specs.Rows.{HasRoom};
ghost use Rattle.session_threads.specs.Served.{HasReaders};
ghost use Rattle.service.specs.Modes.{IsSinkAlone};
ghost use Rattle.service.specs.Run.{AreEnds, NothingHappened, IsUndone, NothingWasDone};
ghost use Rattle.service.specs.Running.{IsRunOf, Ran, RanIn, IsServeRun};
ghost use Rattle.service.specs.ServedOver.{IsServedOver, status_over};
ghost use Rattle.service.specs.World.{Views, World, told_of, views, world_of};

use crate::alone::{run_check, run_gen, run_init};
use crate::closed::{Closed, no_history};
use active_snapshot::{Front, Naming, Shelf, open_book};
use cfg_base::{Limits, NoMemory, Words};
use command_line::{Asked, RunMode, Usage, read_words, words_ask_one_thing};
use config_db::{ClosedBook, Database};
use disk_model::Disk;
use io_edge::{Beat, Clock, Sink, Source};
use modes::{StartWhy0, status_of_start};
use session_history::histories_have_one_outcome;
use session_shell::End;
use session_threads::{Room, Sessions, Ticker, make_room, serve_all};
use std::alloc::Global;
use std::marker::Brand;
use std::sync::Wait;
use std::thread::Threads;
use stored_ledger::{StartFault, starts_have_one_cause};

/// A run that was not begun.
fn idle<S, K, C, B, D>(
    alloc: Global,
    status: u8,
    ends: Vec<End<S, K, C>>,
    ticker: Ticker<B, C>,
    disk_a: D,
    disk_b: D,
) -> Closed<S, K, C, B, D>
    ensures status { result.status ≡ status }
    ensures untouched { let before : World _ _ _ = record { ends = ends.items; ticker = ticker; a = disk_a; b = disk_b } in
        NothingWasDone before (world_of result) (told_of result) }
{
    Closed {
        status,
        why: StartWhy0::None,
        ends,
        ticker,
        turns: Vec::new(alloc),
        history: no_history(alloc),
        disk_a,
        disk_b,
    }
}

/// A run whose start was refused.
fn refused<S, K, C, B, D>(
    alloc: Global,
    fault: StartFault<D>,
    ends: Vec<End<S, K, C>>,
    ticker: Ticker<B, C>,
) -> Closed<S, K, C, B, D>
    ensures status { result.status ≡ start_status fault.why }
    ensures why { result.why ≡ Why fault.why }
    ensures idle { NothingHappened (told_of result) }
    ensures ends { (result.ends ≡ ends) × (result.ticker ≡ ticker) }
    ensures disks { (result.disk_a ≡ fault.a) × (result.disk_b ≡ fault.b) }
{
    let StartFault {
        why,
        a: disk_a,
        b: disk_b,
    } = fault;
    Closed {
        status: status_of_start(why),
        why: StartWhy0::Why(why),
        ends,
        ticker,
        turns: Vec::new(alloc),
        history: no_history(alloc),
        disk_a,
        disk_b,
    }
}

/// The status of a run whose sessions came to one, by whether an entry is in flight at its end.
fn status_over(fault: bool, status: u8) -> u8
    ensures { result ≡ status_over fault status }
{
    if fault { 4 } else { status }
}

/// Serves the sessions of ends for which there is room, over a database in which nothing happened yet, and closes it. The rights
/// of each end's user are asked of each command, or aren't.
fn serve<R, S, K, C, B, D, J>(
    rt: &R,
    alloc: Global,
    database: Database<D, J>,
    room: Room<S, K, C, D, J>,
    ends: Vec<End<S, K, C>>,
    limits: Limits,
    keeps: bool,
    access: bool,
    ticker: Ticker<B, C>,
) -> Closed<S, K, C, B, D>
where
    R: Threads + Wait + Sync,
    S: Source + Send,
    K: Sink + Send,
    C: Clock + Send,
    B: Beat + Send,
    D: Disk + Send,
    J: Naming + Send + Sync,
    requires fresh { (database.events ≡ []) × (database.state ≡ opened database) }
    requires users { database.users ≡ users_of_ends ends.items }
    requires room { HasRoom (length ends.items) room }
    requires few { length ends.items ≤ 64 }
    requires readers { HasReaders database.opening (length ends.items) database.readers }
    ensures { let see : Views _ _ _ = views S.view K.view C.coming B.coming D.view in
        IsServedOver see limits.input access ends.items ticker database (world_of result) (told_of result) }
{
    let Sessions {
        database,
        ends,
        turns,
        ticker,
        status,
    } = serve_all(
        rt, alloc, database, room, ends, limits, keeps, access, ticker,
    );
    let ClosedBook {
        history,
        fault,
        a,
        b,
    } = database.close(rt);
    Closed {
        status: status_over(fault, status),
        why: StartWhy0::None,
        ends,
        ticker,
        turns,
        history,
        disk_a: a,
        disk_b: b,
    }
}

/// Opens the database, and serves the sessions over it.
fn serve_from<R, S, K, C, B, D, J>(
    rt: &R,
    alloc: Global,
    shelf: Shelf,
    front: Front,
    room: Room<S, K, C, D, J>,
    asked: Asked,
    keeps: bool,
    ends: Vec<End<S, K, C>>,
    ticker: Ticker<B, C>,
    disk_a: D,
    disk_b: D,
) -> Closed<S, K, C, B, D>
where
    R: Threads + Wait + Sync,
    S: Source + Send,
    K: Sink + Send,
    C: Clock + Send,
    B: Beat + Send,
    D: Disk + Send,
    J: Naming + Send + Sync,
    requires book { (front.book ≡ J.book) × (shelf ≡ J.book) × (front.list ≡ []) }
    requires users { users_of_ends ends.items ≡ asked.users }
    requires few { length asked.users ≤ 64 }
    requires room { HasRoom (length asked.users) room }
    ensures { let see : Views _ _ _ = views S.view K.view C.coming B.coming D.view in
        let before : World _ _ _ = record { ends = ends.items; ticker = ticker; a = disk_a; b = disk_b } in
        IsServeRun see asked before (world_of result) (told_of result) }
{
    histories_have_one_outcome();
    let limits = asked.limits;
    let access = asked.access;
    match Database::<D, J>::start(
        alloc,
        shelf,
        front,
        disk_a,
        disk_b,
        asked.users,
        limits,
        keeps,
    ) {
        Ok(database) => serve(
            rt, alloc, database, room, ends, limits, keeps, access, ticker,
        ),
        Err(fault) => {
            room.destroy_empty();
            refused(alloc, fault, ends, ticker)
        }
    }
}

/// Serves sessions over the book of that name, where there is memory for the answer. No disk is called before that is known.
fn serve_under<R, S, K, C, B, D, J>(
    rt: &R,
    alloc: Global,
    shelf: Shelf,
    front: Front,
    asked: Asked,
    keeps: bool,
    ends: Vec<End<S, K, C>>,
    ticker: Ticker<B, C>,
    disk_a: D,
    disk_b: D,
) -> Closed<S, K, C, B, D>
where
    R: Threads + Wait + Sync,
    S: Source + Send,
    K: Sink + Send,
    C: Clock + Send,
    B: Beat + Send,
    D: Disk + Send,
    J: Naming + Send + Sync,
    requires book { (front.book ≡ J.book) × (shelf ≡ J.book) × (front.list ≡ []) }
    requires users { users_of_ends ends.items ≡ asked.users }
    requires few { length asked.users ≤ 64 }
    ensures { let see : Views _ _ _ = views S.view K.view C.coming B.coming D.view in
        let before : World _ _ _ = record { ends = ends.items; ticker = ticker; a = disk_a; b = disk_b } in
        IsUndone before (world_of result) (told_of result) ⊎ IsServeRun see asked before (world_of result) (told_of result) }
{
    match make_room(alloc, &asked.users) {
        Ok(room) => serve_from::<R, S, K, C, B, D, J>(
            rt, alloc, shelf, front, room, asked, keeps, ends, ticker, disk_a, disk_b,
        ),
        Err(NoMemory) => idle(alloc, 9, ends, ticker, disk_a, disk_b),
    }
}

/// Serves sessions as the words ask, with a new book for the views of the list of commits.
fn serve_asked<R, S, K, C, B, D>(
    rt: &R,
    alloc: Global,
    asked: Asked,
    keeps: bool,
    ends: Vec<End<S, K, C>>,
    ticker: Ticker<B, C>,
    disk_a: D,
    disk_b: D,
) -> Closed<S, K, C, B, D>
where
    R: Threads + Wait + Sync,
    S: Source + Send,
    K: Sink + Send,
    C: Clock + Send,
    B: Beat + Send,
    D: Disk + Send,
    requires users { users_of_ends ends.items ≡ asked.users }
    requires few { length asked.users ≤ 64 }
    ensures { let see : Views _ _ _ = views S.view K.view C.coming B.coming D.view in
        let before : World _ _ _ = record { ends = ends.items; ticker = ticker; a = disk_a; b = disk_b } in
        IsUndone before (world_of result) (told_of result) ⊎ IsServeRun see asked before (world_of result) (told_of result) }
{
    let (shelf, front) = open_book();
    serve_under::<R, S, K, C, B, D, Brand>(
        rt, alloc, shelf, front, asked, keeps, ends, ticker, disk_a, disk_b,
    )
}

/// Does what is asked, in its mode.
fn run_asked<R, S, K, C, B, D>(
    rt: &R,
    alloc: Global,
    asked: Asked,
    keeps: bool,
    ends: Vec<End<S, K, C>>,
    ticker: Ticker<B, C>,
    disk_a: D,
    disk_b: D,
) -> Closed<S, K, C, B, D>
where
    R: Threads + Wait + Sync,
    S: Source + Send,
    K: Sink + Send,
    C: Clock + Send,
    B: Beat + Send,
    D: Disk + Send,
    requires asks { (words : List (List ℕ)) × Asks words asked }
    requires users { users_of_ends ends.items ≡ asked.users }
    ensures { let see : Views _ _ _ = views S.view K.view C.coming B.coming D.view in
        let before : World _ _ _ = record { ends = ends.items; ticker = ticker; a = disk_a; b = disk_b } in
        Ran see IsSinkAlone (Some asked) before (world_of result) (told_of result) }
{
    match asked.mode {
        RunMode::Serve => serve_asked(rt, alloc, asked, keeps, ends, ticker, disk_a, disk_b),
        RunMode::Init => run_init(alloc, asked, ends, ticker, disk_a, disk_b),
        RunMode::Check => run_check(alloc, asked, ends, ticker, disk_a, disk_b),
        RunMode::Gen => run_gen(alloc, asked, keeps, ends, ticker, disk_a, disk_b),
    }
}

/// The same as `run`. The turns and the events are kept as values, or aren't: then what happened takes no memory.
pub fn run_keeping<R, S, K, C, B, D>(
    rt: &R,
    alloc: Global,
    words: &Words,
    ends: Vec<End<S, K, C>>,
    ticker: Ticker<B, C>,
    disk_a: D,
    disk_b: D,
    keeps: bool,
) -> Closed<S, K, C, B, D>
where
    R: Threads + Wait + Sync,
    S: Source + Send,
    K: Sink + Send,
    C: Clock + Send,
    B: Beat + Send,
    D: Disk + Send,
    requires { AreEnds words.now ends.items }
    ensures { let see : Views _ _ _ = views S.view K.view C.coming B.coming D.view in
        let before : World _ _ _ = record { ends = ends.items; ticker = ticker; a = disk_a; b = disk_b } in
        IsRunOf see IsSinkAlone words.now before (world_of result) (told_of result) }
{
    words_ask_one_thing();
    starts_have_one_cause();
    match read_words(alloc, words) {
        Ok(asked) => run_asked(rt, alloc, asked, keeps, ends, ticker, disk_a, disk_b),
        Err(Usage::Refused) => idle(alloc, 1, ends, ticker, disk_a, disk_b),
        Err(Usage::NoMemory) => idle(alloc, 9, ends, ticker, disk_a, disk_b),
    }
}

/// Does what the words ask, with the ends that they ask for. Mode serve opens the list of commits on the two disks,
/// serves the sessions side by side, as callers 1, 2 and so on, with the ticker beside them, and closes the list; each
/// other mode has one end, whose source isn't read. Where memory runs out all parts come back. What happened is told to
/// clauses alone, so it takes no memory, however long the run lasts.
pub fn run<R, S, K, C, B, D>(
    rt: &R,
    alloc: Global,
    words: &Words,
    ends: Vec<End<S, K, C>>,
    ticker: Ticker<B, C>,
    disk_a: D,
    disk_b: D,
) -> Closed<S, K, C, B, D>
where
    R: Threads + Wait + Sync,
    S: Source + Send,
    K: Sink + Send,
    C: Clock + Send,
    B: Beat + Send,
    D: Disk + Send,
    requires { AreEnds words.now ends.items }
    ensures { let see : Views _ _ _ = views S.view K.view C.coming B.coming D.view in
        let before : World _ _ _ = record { ends = ends.items; ticker = ticker; a = disk_a; b = disk_b } in
        IsRunOf see IsSinkAlone words.now before (world_of result) (told_of result) }
{
    run_keeping(rt, alloc, words, ends, ticker, disk_a, disk_b, false)
}
