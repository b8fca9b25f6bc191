//! The book of views that a database begins with.

ghost use Rattle.std.specs.Prelude.{◌≡◌, [], IfOk};

use active_snapshot::{Front, Naming, Shelf};
use cfg_base::{Limits, Users};
use config_db::Database;
use disk_model::MemDisk;
use std::alloc::Global;
use std::marker::{Model, PhantomData};
use std::sync::Wait;
use stored_ledger::StartFault;

/// How many bytes each disk has room for.
pub(crate) const ROOM: u64 = 1 << 20;

/// What limits a database whose journal has that limit.
pub(crate) fn limits(journal: u64) -> Limits {
    Limits { input: 0, journal }
}

/// A book without a view, for one database.
#[derive(Drop)]
pub(crate) struct NewBook<J: Naming> {
    shelf: Shelf,
    front: Front,
    of: PhantomData<J>,
}

impl<J: Naming> Model for NewBook<J> {
    ghost use Rattle.std.specs.Prelude.{◌≡◌, []};

    ghost Value = { Unit {0} };

    ghost view = { λ n. tt };

    ghost invariant = { λ n. (n.front.book ≡ J.book) × (n.shelf ≡ J.book) × (n.front.list ≡ []) };
}

impl<J: Naming> NewBook<J> {
    pub(crate) fn of(shelf: Shelf, front: Front) -> NewBook<J>
        requires { (front.book ≡ J.book) × (shelf ≡ J.book) × (front.list ≡ []) }
    {
        NewBook {
            shelf,
            front,
            of: PhantomData,
        }
    }

    /// Opens the database that two disks hold.
    pub(crate) fn start(
        self,
        alloc: Global,
        a: MemDisk,
        b: MemDisk,
        users: Users,
        journal: u64,
    ) -> Result<Database<MemDisk, J>, StartFault<MemDisk>>
        ensures { IfOk result (λ book. book.users ≡ users) }
    {
        let NewBook {
            shelf,
            front,
            of: _,
        } = self;
        Database::start(alloc, shelf, front, a, b, users, limits(journal), true)
    }

    /// Makes a database on two disks.
    pub(crate) fn create<R: Wait>(
        self,
        rt: &R,
        alloc: Global,
        a: MemDisk,
        b: MemDisk,
        users: Users,
        journal: u64,
    ) -> Result<Database<MemDisk, J>, StartFault<MemDisk>>
        ensures { IfOk result (λ book. book.users ≡ users) }
    {
        let NewBook {
            shelf,
            front,
            of: _,
        } = self;
        Database::create(rt, alloc, shelf, front, a, b, users, limits(journal), true)
    }
}
