//! The database under the lock, and the notes of turns whose command became no event.

ghost use Rattle.std.specs.Prelude.{◌≡◌, []};
ghost use Rattle.config_db.specs.View.{opened};
ghost use Rattle.session_threads.specs.Begun.{start_of};
ghost use Rattle.session_threads.specs.Noted.{caller_in, merged};
ghost use Rattle.session_threads.specs.Served.{IsUnderway};

use crate::begun::Begun;
use crate::noted::{Note, Noted};
use crate::ticking::Ticker;
use crate::waking::Waker;
use active_snapshot::Naming;
use config_db::Database;
use disk_model::Disk;
use std::alloc::Global;
use std::marker::Model;
use turn_lock::Book;

/// The database under the lock, with the notes.
pub(crate) struct Served<D: Disk, J: Naming> {
    pub(crate) database: Database<D, J>,
    /// How it began.
    first: Begun<D>,
    pub(crate) notes: Vec<Note>,
    /// How many sessions have not ended.
    pub(crate) waiting: u32,
    /// What wakes the ticker, where it sleeps.
    pub(crate) waker: Option<Waker>,
}

impl<D: Disk, J: Naming> Model for Served<D, J> {
    ghost use Rattle.std.specs.Coded.{codes};
    ghost use Rattle.cfg_tree.specs.Statements.{statements_code};
    ghost use Rattle.session_threads.specs.Served.{IsUnderway, ServedView};

    ghost Value = { ServedView };

    ghost coded = { Prim.hlevel (codes, statements_code) };

    ghost view = { λ s. record { first = s.first; database = s.database; notes = s.notes.items } };

    ghost invariant = { λ s. IsUnderway (record { first = s.first; database = s.database; notes = s.notes.items }) };
}

impl<D: Disk, J: Naming> Book for Served<D, J> {
    type Entry = Noted;

    type Fixed = Begun<D>;

    ghost history = { λ served. merged 0 served.database.events served.notes };

    ghost caller_of = { caller_in };

    ghost fixed = { λ served. served.first };

    fn count(&self) -> u64 {
        self.database.count() + self.notes.len() as u64
    }
}

impl<D: Disk, J: Naming> Served<D, J> {
    /// A database in which nothing happened yet, for so many sessions beside a ticker.
    pub(crate) fn of<B, C>(
        alloc: Global,
        database: Database<D, J>,
        sessions: u32,
        ticker: &Ticker<B, C>,
    ) -> Served<D, J>
        requires fresh { database.events ≡ [] }
        requires starts { database.state ≡ opened database }
        ensures { result ≡ record { first = start_of database; database = database; notes = [] } }
    {
        let first = Begun::of(&database);
        Served {
            database,
            first,
            notes: Vec::new(alloc),
            waiting: sessions,
            waker: ticker.waker_again(),
        }
    }

    /// The database.
    pub(crate) fn into_database(self) -> Database<D, J>
        ensures is { result ≡ self.database }
        ensures underway { IsUnderway self }
    {
        let Served {
            database,
            first: _,
            notes: _,
            waiting: _,
            waker: _,
        } = self;
        database
    }
}
