//! What is published: a view, with the list of which it is the last.

ghost use Rattle.std.specs.Prelude.{◌≡◌, ◌++◌, ◌∷◌, [], length, IfOk, IfSome};
ghost use Rattle.std.specs.Arc.{arc_value};
ghost use Rattle.active_snapshot.specs.Views.{AreViews, ComesNext, IsLast};

use crate::book::{Front, Shelf};
use crate::view::Shown;
use cfg_base::NoMemory;
use left_right::Absorb;
use std::alloc::{AllocError, Global};
use std::marker::Model;
use std::snapshot::Snapshot;
use std::sync::Arc;

/// A view with its list. It is not generic: through a generic `impl Absorb` nothing that holds it could go to a thread.
#[derive(Drop)]
pub struct Slot {
    pub shown: Arc<Shown, Global>,
    pub front: Front,
}

impl Model for Slot {
    ghost use Rattle.std.specs.Arc.{arc_value};
    ghost use Rattle.std.specs.Coded.{codes};
    ghost use Rattle.cfg_tree.specs.Statements.{statements_code};
    ghost use Rattle.active_snapshot.specs.States.{FrontView};
    ghost use Rattle.active_snapshot.specs.Views.{AreViews, IsLast};

    ghost Value = { FrontView };

    ghost coded = { Prim.hlevel (codes, statements_code) };

    ghost view = { λ s. s.front };

    ghost invariant = { λ s. AreViews s.front.list × IsLast s.front.list (arc_value s.shown) };
}

/// A publish puts a new view in the old one's place.
impl Absorb<Slot> for Slot {
    type State = Slot;

    ghost state = { λ slot. slot };

    ghost applied = { λ before next. next };

    fn absorb_first(&mut self, operation: &Slot, _other: &Slot) -> Result<(), AllocError> {
        let shown = Arc::try_clone(&operation.shown)?;
        let front = operation.front.again();
        *self = Slot { shown, front };
        Ok(())
    }
}

impl Slot {
    /// The same view, counted once more.
    pub(crate) fn again(&self) -> Result<Slot, NoMemory>
        ensures { IfOk result (λ slot. slot ≡ self.now) }
    {
        Ok(Slot {
            shown: Arc::try_clone(&self.shown)?,
            front: self.front.again(),
        })
    }

    /// How many views there are.
    pub(crate) fn len(&self) -> u64
        ensures { result ≡ length self.now.list }
    {
        self.front.len()
    }

    /// The view that comes next, after the list. `None` where the book's list has become longer.
    pub(crate) fn with(&self, shelf: &Shelf, shown: Arc<Shown, Global>) -> Option<Slot>
        requires shelf { shelf.now ≡ self.now.book }
        requires next { ComesNext self.now.list (arc_value shown) }
        ensures { IfSome result (λ slot. slot ≡ record {
          book = self.now.book;
          list = self.now.list ++ arc_value shown ∷ [];
        }) }
    {
        // The list has no more views than its last one has entries, and one: so there is room.
        let _ = self.shown.front();
        let mut front = self.front.again();
        if front.add(shelf, &Snapshot::of(&*shown)) {
            Some(Slot { shown, front })
        } else {
            None
        }
    }
}
