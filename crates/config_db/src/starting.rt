//! How two disks become a database.

ghost use Rattle.std.specs.Prelude.{◌≡◌, [], length, max, replicate, IfOk, IfErr};
ghost use Rattle.disk_model.specs.Pair.{pair_of};
ghost use Rattle.commit_journal.specs.Journal.{disk_a, disk_b, disks_of};
ghost use Rattle.commit_check.specs.Accepts.{Accepts};
ghost use Rattle.commit_ledger.specs.Kept.{factory};
ghost use Rattle.active_snapshot.specs.States.{first_read, first_written};
ghost use Rattle.config_core.specs.State.{opening_of};
ghost use Rattle.stored_ledger.specs.declared.why.StartWhy.TheVariants.{NoMemory as MemoryWanting};
ghost use Rattle.stored_ledger.specs.Starting.{IsFound, IsMade, IsNotFound, IsNotMade};
ghost use Rattle.config_db.specs.Book.{IsOpening};
ghost use Rattle.config_db.specs.Starting.{IsBegun};

use crate::database::Database;
use crate::holding::Held;
use crate::showing::first_view;
use active_snapshot::{Front, Naming, Shelf, SnapReaders, SnapWriter, shown};
use cfg_base::{Limits, NoMemory, Users};
use commit_check::nothing_is_accepted;
use commit_journal::Journal;
use commit_ledger::Ledger;
use config_core::Core;
use disk_model::Disk;
use std::alloc::Global;
use std::sync::Wait;
use stored_ledger::{StartFault, StartWhy, Stored};
use trace_list::Trace;

/// The machine over a list, and a copy of the list.
fn core_over(alloc: Global, ledger: Ledger, users: &Users) -> Result<(Core, Ledger), NoMemory>
    ensures { IfOk result (λ made. (made.0 ≡ opening_of ledger users.now) × (made.1 ≡ ledger)) }
{
    let opening = ledger.copy(alloc)?;
    let core = Core::new(alloc, ledger, users)?;
    Ok((core, opening))
}

/// A reader for each user, and one where there is no user. Nobody counts so many users that their number doesn't fit.
fn readers_for(users: &Users) -> Result<u32, NoMemory>
    ensures { IfOk result (λ readers. readers ≡ max 1 (length users.now)) }
{
    match u32::try_from(users.as_slice().len()) {
        Ok(readers) => Ok(readers.max(1)),
        Err(_) => Err(NoMemory),
    }
}

/// What shows the list, and its readers.
fn shown_over<J: Naming>(
    alloc: Global,
    shelf: Shelf,
    front: Front,
    opening: &Ledger,
    users: &Users,
) -> Result<(SnapWriter<J>, SnapReaders<J>), NoMemory>
    requires book { (front.book ≡ J.book) × (shelf ≡ J.book) × (front.list ≡ []) }
    requires accepted { Accepts opening.now.last.tree }
    ensures writer { IfOk result (λ ends. ends.0 ≡ first_written opening.now) }
    ensures readers { IfOk result
        (λ ends. ends.1 ≡ replicate (max 1 (length users.now)) (first_read opening.now)) }
{
    let readers = readers_for(users)?;
    let view = first_view(alloc, opening)?;
    shown(alloc, shelf, front, view, readers)
}

/// The machine over a list, a copy of the list, and what shows it. It is not `Drop`, as the writer isn't.
struct Over<J: Naming> {
    core: Core,
    opening: Ledger,
    shown: SnapWriter<J>,
    readers: SnapReaders<J>,
}

impl<J: Naming> Over<J> {
    /// The machine over a list whose active configuration is accepted.
    fn of(
        alloc: Global,
        shelf: Shelf,
        front: Front,
        ledger: Ledger,
        users: &Users,
    ) -> Result<Over<J>, NoMemory>
        requires book { (front.book ≡ J.book) × (shelf ≡ J.book) × (front.list ≡ []) }
        requires accepted { Accepts ledger.last.tree }
        ensures { IfOk result (λ over. over ≡ record {
          core = opening_of ledger users.now;
          opening = ledger;
          shown = first_written ledger;
          readers = replicate (max 1 (length users.now)) (first_read ledger);
        }) }
    {
        let (core, opening) = core_over(alloc, ledger, users)?;
        // The writer comes last: it must be ended, and nothing may fail after it.
        let (shown, readers) = shown_over(alloc, shelf, front, &opening, users)?;
        Ok(Over {
            core,
            opening,
            shown,
            readers,
        })
    }

    /// The machine over the list of the factory commit.
    fn factory(
        alloc: Global,
        shelf: Shelf,
        front: Front,
        users: &Users,
    ) -> Result<Over<J>, NoMemory>
        requires { (front.book ≡ J.book) × (shelf ≡ J.book) × (front.list ≡ []) }
        ensures { IfOk result (λ over. over ≡ record {
          core = opening_of factory users.now;
          opening = factory;
          shown = first_written factory;
          readers = replicate (max 1 (length users.now)) (first_read factory);
        }) }
    {
        nothing_is_accepted();
        Over::of(alloc, shelf, front, Ledger::factory(alloc)?, users)
    }

    /// Ends its writer.
    fn end<R: Wait>(self, rt: &R) {
        let Over {
            core: _,
            opening: _,
            shown,
            readers: _,
        } = self;
        shown.end(rt);
    }
}

/// Gives back the disks of a journal after which memory ran out.
fn without_memory<D: Disk>(journal: Journal<D>) -> StartFault<D>
    ensures { (result.why ≡ MemoryWanting) × (D.view result.a ≡ disk_a journal) × (D.view result.b ≡ disk_b journal) }
{
    let (a, b) = journal.into_disks();
    StartFault {
        why: StartWhy::NoMemory,
        a,
        b,
    }
}

impl<D: Disk, J: Naming> Database<D, J> {
    // The machine over a journal that was just opened, and over the list that it holds.
    fn over(
        alloc: Global,
        journal: Journal<D>,
        users: Users,
        over: Over<J>,
        keeps: bool,
    ) -> Database<D, J>
        requires held { IsOpening journal over.opening }
        requires starts { over.core ≡ opening_of over.opening users }
        requires shown { over.shown ≡ first_written over.opening }
        ensures { result ≡ record {
          journal = journal;
          opening = over.opening;
          users = users;
          events = [];
          state = over.core;
          shown = over.shown;
          readers = over.readers;
        } }
    {
        let Over {
            core,
            opening,
            shown,
            readers,
        } = over;
        Database {
            alloc,
            journal,
            opening,
            users,
            events: Trace::new(alloc, keeps),
            core,
            held: Held::none(alloc),
            shown,
            readers,
        }
    }

    /// Opens the database over the list of commits that two disks hold, for the users of callers 1, 2 and so on, with an empty
    /// book of views. It leaves the contents of the disks as they were. The events of the database are kept as values, or aren't.
    #[tactic(auto, using(crate::proofs::BookLemmas::sound_waiting))]
    pub fn start(
        alloc: Global,
        shelf: Shelf,
        front: Front,
        a: D,
        b: D,
        users: Users,
        limits: Limits,
        keeps: bool,
    ) -> Result<Database<D, J>, StartFault<D>>
        requires book { (front.book ≡ J.book) × (shelf ≡ J.book) × (front.list ≡ []) }
        ensures begun { IfOk result (λ book. IsBegun (pair_of D.view a b) users limits.journal book) }
        ensures found { IfOk result (λ book.
            IsFound (pair_of D.view a b) (disks_of book.journal) book.opening) }
        ensures err { IfErr result (λ fault.
            IsNotFound (pair_of D.view a b) fault.why (pair_of D.view fault.a fault.b)) }
    {
        match Stored::open(alloc, a, b, limits) {
            Err(fault) => Err(fault),
            Ok(stored) => {
                let Stored { journal, ledger } = stored;
                match Over::of(alloc, shelf, front, ledger, &users) {
                    Err(NoMemory) => Err(without_memory(journal)),
                    Ok(over) => Ok(Database::over(alloc, journal, users, over, keeps)),
                }
            }
        }
    }

    /// Makes a list of the factory commit alone on two disks, unless a journal is there, and opens the database over it, for the
    /// users of callers 1, 2 and so on, with an empty book of views. Where a disk refuses, the book's writer ends.
    pub fn create<R: Wait>(
        rt: &R,
        alloc: Global,
        shelf: Shelf,
        front: Front,
        a: D,
        b: D,
        users: Users,
        limits: Limits,
        keeps: bool,
    ) -> Result<Database<D, J>, StartFault<D>>
        requires book { (front.book ≡ J.book) × (shelf ≡ J.book) × (front.list ≡ []) }
        ensures begun { IfOk result (λ book. IsBegun (pair_of D.view a b) users limits.journal book) }
        ensures factory { IfOk result (λ book. book.opening ≡ factory) }
        ensures made { IfOk result (λ book.
            IsMade (pair_of D.view a b) (disks_of book.journal)) }
        ensures err { IfErr result (λ fault.
            IsNotMade (pair_of D.view a b) fault.why (pair_of D.view fault.a fault.b)) }
    {
        // All memory is taken before the first device write: the machine's here, the list's and its record's by `Stored::create`.
        match Over::factory(alloc, shelf, front, &users) {
            Err(NoMemory) => Err(StartFault {
                why: StartWhy::NoMemory,
                a,
                b,
            }),
            Ok(over) => match Stored::create(alloc, a, b, limits) {
                Err(fault) => {
                    over.end(rt);
                    Err(fault)
                }
                Ok(stored) => {
                    let Stored { journal, ledger: _ } = stored;
                    Ok(Database::over(alloc, journal, users, over, keeps))
                }
            },
        }
    }
}
