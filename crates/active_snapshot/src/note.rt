//! What a writer reports.

ghost use Rattle.std.specs.Prelude.{◌≡◌, length};
ghost use Rattle.active_snapshot.specs.Views.{AreViews};

use crate::book::{Front, Naming};
use std::marker::{Model, PhantomData};

/// How far a writer's list of views goes, and how many of them are published.
#[derive(Drop)]
pub struct SnapNote<J: Naming> {
    pub(crate) kept: Front,
    published: u64,
    of: PhantomData<J>,
}

impl<J: Naming> Model for SnapNote<J> {
    ghost use Rattle.std.specs.Prelude.{◌≡◌};
    ghost use Rattle.std.specs.Coded.{codes};
    ghost use Rattle.cfg_tree.specs.Statements.{statements_code};
    ghost use Rattle.active_snapshot.specs.States.{NoteView};
    ghost use Rattle.active_snapshot.specs.Views.{AreViews};

    ghost Value = { NoteView };

    ghost coded = { Prim.hlevel (codes, statements_code) };

    ghost view = { λ n. record { list = n.kept.list; published = n.published } };

    ghost invariant = { λ n. (n.kept.book ≡ J.book) × AreViews n.kept.list };
}

impl<J: Naming> SnapNote<J> {
    pub(crate) fn of(kept: Front, published: u64) -> SnapNote<J>
        requires book { kept.book ≡ J.book }
        requires views { AreViews kept.list }
        ensures { result ≡ record { list = kept.list; published = published } }
    {
        SnapNote {
            kept,
            published,
            of: PhantomData,
        }
    }

    /// How many views there are.
    pub fn kept(&self) -> u64
        ensures { result ≡ length self.now.list }
    {
        self.kept.len()
    }

    /// How many views are published.
    pub fn published(&self) -> u64
        ensures { result ≡ self.now.published }
    {
        self.published
    }
}
