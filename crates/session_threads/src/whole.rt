//! All sessions of a run over one database, from the ends to what resulted from them.

ghost use Rattle.std.specs.Prelude.{◌≡◌, ◌<◌, ◌≤◌, ◌==◌, [], ℕ, length, vec_capacity, All, IfOk, if◌then◌else◌};
ghost use Rattle.commit_ledger.specs.Kept.{Kept};
ghost use Rattle.config_db.specs.View.{opened};
ghost use Rattle.session_shell.specs.Opened.{end_view};
ghost use Rattle.session_threads.specs.Looks.{ticker_view};
ghost use Rattle.session_threads.specs.Results.{status_of, users_of_ends};
ghost use Rattle.session_threads.specs.Rows.{AreLeft, HasRoom, IsSeatOf, NoneServed, PairsFrom, SitsIn};
ghost use Rattle.session_threads.specs.Served.{AreServed, HasReaders};

use crate::begun::Begun;
use crate::noted::Noted;
use crate::seat::Seat;
use crate::served::Served;
use crate::threads::serve_seats;
use crate::ticking::Ticker;
use active_snapshot::{Naming, SnapReaders};
use cfg_base::{Limits, NoMemory, Users};
use config_db::Database;
use disk_model::Disk;
use io_edge::{Beat, Clock, Sink, Source};
use session_shell::{End, How, TurnList};
use std::alloc::Global;
use std::sync::Wait;
use std::thread::Threads;
use turn_lock::{NoTurns, Pass, Turns};

/// Room for the sessions of so many ends.
pub struct Room<S, K, C, D: Disk, J: Naming> {
    seats: Vec<Option<Seat<S, K, C, Begun<D>, J>>>,
    lists: Vec<TurnList>,
}

/// What resulted from all sessions: the database, the ends and the turns in their order, the ticker, and the status of the
/// first session that didn't end clean.
pub struct Sessions<S, K, C, B, D: Disk, J: Naming> {
    pub database: Database<D, J>,
    pub ends: Vec<End<S, K, C>>,
    pub turns: Vec<TurnList>,
    pub ticker: Ticker<B, C>,
    pub status: u8,
}

/// Room for the sessions of these users.
pub fn make_room<S, K, C, D: Disk, J: Naming>(
    alloc: Global,
    users: &Users,
) -> Result<Room<S, K, C, D, J>, NoMemory>
    ensures { IfOk result (λ room. HasRoom (length users.now) room) }
{
    let count = users.as_slice().len();
    let lists = Vec::with_capacity(alloc, count).map_err(|_| NoMemory)?;
    let seats = Vec::with_capacity(alloc, count).map_err(|_| NoMemory)?;
    Ok(Room { seats, lists })
}

impl<S, K, C, D: Disk, J: Naming> Room<S, K, C, D, J> {
    /// Ends it, while nobody is in it.
    pub fn destroy_empty(self)
        requires { (count : ℕ) × HasRoom count self }
    {
        let Room { seats, lists: _ } = self;
        seats.destroy_empty();
    }
}

fn status_of(how: How) -> u8
    ensures { result ≡ status_of how }
{
    match how {
        How::Clean => 0,
        How::SourceFault => 5,
        How::SinkFault => 6,
        How::InputFull => 7,
        How::NoMemory => 9,
    }
}

/// The status of sessions that came to one, and of one more that ended so.
fn first_status(status: u8, how: How) -> u8
    ensures { result ≡ (if status == 0 then status_of how else status) }
{
    if status == 0 { status_of(how) } else { status }
}

/// The status of so many sessions of which none began.
fn status_of_none(count: usize) -> u8
    ensures { result ≡ (if count == 0 then 0 else 9) }
{
    if count == 0 { 0 } else { 9 }
}

/// Takes the ends out, and seats each with a pass and a reader: the k-th end is caller k's.
fn seat_all<S, K, C, D: Disk, J: Naming>(
    alloc: Global,
    lock: &Turns<Served<D, J>>,
    pass: &mut Pass<Noted, Begun<D>>,
    readers: &mut SnapReaders<J>,
    ends: &mut Vec<End<S, K, C>>,
    seats: &mut Vec<Option<Seat<S, K, C, Begun<D>, J>>>,
)
    requires pass { (pass.old.lock ≡ lock.now) × (pass.old.caller ≡ 0) × (pass.old.splits ≡ 0) × (pass.old.ended ≡ []) }
    requires few { length ends.old.items < pass.old.callers }
    requires readers { (opening : Kept) × HasReaders opening (length ends.old.items) readers.old }
    requires room { (seats.old.items ≡ []) × (length ends.old.items ≤ vec_capacity seats.old) }
    ensures pass { pass.new ≡ record pass.old { splits = length ends.old.items } }
    ensures ends { (ends.new.items ≡ []) × (vec_capacity ends.new ≡ vec_capacity ends.old) }
    ensures seats { (opening : Kept) → HasReaders opening (length ends.old.items) readers.old
        → PairsFrom (SitsIn opening pass.old) 1 ends.old.items seats.new.items }
    ensures room { vec_capacity seats.new ≡ vec_capacity seats.old }
{
    let Some(end) = ends.pop() else {
        return;
    };
    let Some(reader) = readers.take() else {
        unreachable!()
    };
    seat_all(alloc, lock, pass, readers, ends, seats);
    let own = lock.split(pass);
    seats.push_reserved(Some(Seat {
        pass: own,
        reader,
        end,
        how: How::NoMemory,
        turns: TurnList::none(alloc),
    }));
}

/// Joins the passes of all seats, and puts back the ends, with the turns. It reports the status of the first session that
/// didn't end clean.
fn leave_all<S, K, C, D: Disk, J: Naming>(
    lock: &Turns<Served<D, J>>,
    pass: &mut Pass<Noted, Begun<D>>,
    seats: Vec<Option<Seat<S, K, C, Begun<D>, J>>>,
    ends: &mut Vec<End<S, K, C>>,
    turns: &mut Vec<TurnList>,
) -> u8
    requires pass { (pass.old.lock ≡ lock.now) × (pass.old.caller ≡ 0) }
    requires seats { All (IsSeatOf lock.now) seats.items }
    requires ends { (ends.old.items ≡ []) × (length seats.items ≤ vec_capacity ends.old) }
    requires turns { (turns.old.items ≡ []) × (length seats.items ≤ vec_capacity turns.old) }
    ensures left { AreLeft seats.items pass.old pass.new ends.new.items turns.new.items result }
    ensures room { (vec_capacity ends.new ≡ vec_capacity ends.old) × (vec_capacity turns.new ≡ vec_capacity turns.old) }
{
    let mut seats = seats;
    let Some(place) = seats.pop() else {
        seats.destroy_empty();
        return 0;
    };
    let Some(
        Seat {
            pass: own,
            reader: _,
            end,
            how,
            turns: list,
        },
    ) = place
    else {
        unreachable!()
    };
    let status = leave_all(lock, pass, seats, ends, turns);
    lock.join(pass, own);
    ends.push_reserved(end);
    turns.push_reserved(list);
    first_status(status, how)
}

/// What results from sessions for which there was no memory.
fn none_served<S, K, C, B, D: Disk, J: Naming>(
    alloc: Global,
    database: Database<D, J>,
    ends: Vec<End<S, K, C>>,
    turns: Vec<TurnList>,
    ticker: Ticker<B, C>,
) -> Sessions<S, K, C, B, D, J>
    requires turns { (turns.items ≡ []) × (length ends.items ≤ vec_capacity turns) }
    ensures none { NoneServed ends.items result.turns.items result.status }
    ensures same { (result.database ≡ database) × (result.ends ≡ ends) × (result.ticker ≡ ticker) }
{
    let mut turns = turns;
    let count = ends.len();
    for _ in 0..count {
        turns.push_reserved(TurnList::none(alloc));
    }
    let status = status_of_none(count);
    Sessions {
        database,
        ends,
        turns,
        ticker,
        status,
    }
}

/// Serves the sessions of all ends, as callers 1, 2 and so on, and runs the ticker beside them, over a database in
/// which nothing happened yet, and which has a reader for each. The turns are kept as values, or aren't; the rights of each
/// end's user are asked of each command, or aren't. Where memory runs out for the lock no session begins.
pub fn serve_all<R, S, K, C, B, D, J>(
    rt: &R,
    alloc: Global,
    database: Database<D, J>,
    room: Room<S, K, C, D, J>,
    ends: Vec<End<S, K, C>>,
    limits: Limits,
    keeps: bool,
    access: bool,
    ticker: Ticker<B, C>,
) -> Sessions<S, K, C, B, D, J>
where
    R: Threads + Wait + Sync,
    S: Source + Send,
    K: Sink + Send,
    C: Clock + Send,
    B: Beat + Send,
    D: Disk + Send,
    J: Naming + Send + Sync,
    requires fresh { (database.events ≡ []) × (database.state ≡ opened database) }
    requires users { database.users ≡ users_of_ends ends.items }
    requires readers { HasReaders database.opening (length ends.items) database.readers }
    requires room { HasRoom (length ends.items) room }
    requires few { length ends.items ≤ 64 }
    ensures { AreServed (end_view S.view K.view C.coming) limits.input access database ends.items
        (ticker_view B.coming C.coming ticker) (record {
          ends = result.ends.items;
          ticker = ticker_view B.coming C.coming result.ticker;
          turns = result.turns.items;
          database = result.database;
          status = result.status;
        }) }
{
    let Room { mut seats, lists } = room;
    let mut ends = ends;
    let mut turns = lists;
    let mut ticker = ticker;
    let mut database = database;
    let mut readers = database.readers();
    let count = ends.len() as u32;
    let (lock, mut pass) = match Turns::new(
        alloc,
        Served::of(alloc, database, count, &ticker),
        count + 1,
    ) {
        Ok(made) => made,
        Err(NoTurns { value }) => {
            seats.destroy_empty();
            return none_served(alloc, value.into_database(), ends, turns, ticker);
        }
    };
    seat_all(alloc, &lock, &mut pass, &mut readers, &mut ends, &mut seats);
    serve_seats(
        rt,
        alloc,
        &lock,
        limits,
        keeps,
        access,
        seats.as_mut_slice(),
        &mut pass,
        &mut ticker,
    );
    let status = leave_all(&lock, &mut pass, seats, &mut ends, &mut turns);
    let database = lock.close(pass).into_database();
    Sessions {
        database,
        ends,
        turns,
        ticker,
        status,
    }
}
