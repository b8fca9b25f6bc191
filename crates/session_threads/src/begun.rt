//! How a database began.

ghost use Rattle.std.specs.Prelude.{◌≡◌};
ghost use Rattle.session_threads.specs.Begun.{start_of};

use active_snapshot::Naming;
use cfg_base::Users;
use commit_journal::Journal;
use commit_ledger::Ledger;
use config_db::Database;
use disk_model::Disk;
use std::marker::Model;
use std::snapshot::Snapshot;

/// How a database began: with its journal, over its list, for its users. It names no book, and has no bytes.
#[derive(Drop)]
pub(crate) struct Begun<D: Disk> {
    journal: Snapshot<Journal<D>>,
    opening: Snapshot<Ledger>,
    users: Snapshot<Users>,
}

impl<D: Disk> Model for Begun<D> {
    ghost use Rattle.std.specs.Coded.{codes};
    ghost use Rattle.cfg_tree.specs.Statements.{statements_code};
    ghost use Rattle.config_db.specs.View.{DatabaseView};
    ghost use Rattle.session_threads.specs.Begun.{start_with};

    ghost Value = { DatabaseView };

    ghost coded = { Prim.hlevel (codes, statements_code) };

    ghost view = { λ b. start_with b.journal.value b.opening.value b.users.value };
}

impl<D: Disk> Begun<D> {
    /// How a database began, of one that has its journal still.
    pub(crate) fn of<J: Naming>(database: &Database<D, J>) -> Begun<D>
        ensures { result ≡ start_of database.now }
    {
        let (journal, opening, users) = database.parts();
        Begun {
            journal: Snapshot::of(journal),
            opening: Snapshot::of(opening),
            users: Snapshot::of(users),
        }
    }
}
