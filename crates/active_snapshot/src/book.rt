//! One list of views for all threads, which only grows, and what was seen of it.

ghost use Rattle.std.specs.Prelude.{◌≡◌, ◌≤◌, ◌<◌, ◌^◌, ◌++◌, ◌∷◌, [], length, MatchBool};
ghost use mathlib.Core.List.{IsPrefix};
ghost use Rattle.active_snapshot.specs.Book.{head_of, GoesOn};

use crate::view::Shown;
use logbook::{Gain, Offer, Plain, Play, Rule, Seen, Start, Word};
use std::marker::{Brand, Model};
use std::snapshot::Snapshot;

/// The rule of the book: its first word is the length of the list.
pub struct Law;

impl Rule<Shown, u64> for Law {
    ghost use Rattle.std.specs.Prelude.{[], ⊤};
    ghost use base.Fml.{ftrue};
    ghost use Rattle.active_snapshot.specs.Book.{IsKeptIn};

    ghost holds = { λ cells list. IsKeptIn cells list };

    ghost first = { [] };

    ghost hinted = { λ number list. ⊤ };

    ghost shows = { λ list. [] };

    ghost keeps = { λ names list. ftrue };

    ghost moves = { λ ask before after answer. ⊤ };
}

/// Adding a view exchanges no tokens.
struct Nothing;

impl Gain<Shown, u64> for Nothing {
    ghost use base.Fml.{ftrue};

    ghost after = { λ names about answer. ftrue };
}

/// The step that adds a view.
struct Add;

impl Play<Shown, u64> for Add {
    ghost use Rattle.active_snapshot.specs.Book.{Adds};

    ghost then = { Adds };
}

impl Plain<Snapshot<Shown>, Shown, u64> for Add {
    ghost use Rattle.std.specs.Prelude.{None};

    ghost ask = { λ view. view.value };

    ghost state = { λ view. None };
}

/// Which book it is. Each run of a program picks it.
pub trait Naming {
    ghost use Rattle.logbook.specs.Pages.{Book};

    ghost book: { Book };
}

impl Naming for Brand {
    ghost book = { record { number = 0; log_name = 0; cells_name = 0 } };
}

/// The end of a book's list, at which views are added.
#[derive(Drop)]
pub struct Shelf {
    head: Word<Shown, u64, Law>,
}

impl Model for Shelf {
    ghost use Rattle.std.specs.Prelude.{◌≡◌};
    ghost use Rattle.logbook.specs.Pages.{Book};
    ghost use Rattle.active_snapshot.specs.Book.{head_of};

    ghost Value = { Book };

    ghost view = { λ s. s.head.book };

    ghost invariant = { λ s. s.head ≡ head_of s.head.book };
}

/// A beginning of a book's list that was seen.
#[derive(Drop)]
pub struct Front {
    count: u64,
    seen: Seen<Shown, u64, Law>,
}

impl Model for Front {
    ghost use Rattle.std.specs.Prelude.{◌≡◌, length};
    ghost use Rattle.std.specs.Coded.{codes};
    ghost use Rattle.cfg_tree.specs.Statements.{statements_code};
    ghost use Rattle.active_snapshot.specs.States.{FrontView};

    ghost Value = { FrontView };

    ghost coded = { Prim.hlevel (codes, statements_code) };

    ghost view = { λ f. record { book = f.seen.book; list = f.seen.log } };

    ghost invariant = { λ f. f.count ≡ length f.seen.log };
}

/// A new book, whose list is empty.
pub fn open_book() -> (Shelf, Front)
    ensures { (result.1.list ≡ []) × (result.0 ≡ result.1.book) }
{
    let (seen, mut first, _second) = Seen::open(Start::alone(), 0, 0);
    let head = Word::tracked(0, &mut first);
    (Shelf { head }, Front { count: 0, seen })
}

impl Front {
    /// How many views there are.
    pub(crate) fn len(&self) -> u64
        ensures { result ≡ length self.now.list }
    {
        self.count
    }

    /// A copy.
    pub fn again(&self) -> Front
        ensures { result ≡ self.now }
    {
        Front {
            count: self.count,
            seen: self.seen.again(),
        }
    }

    /// Whether the other is as long or longer. Then it begins with this one, and else this one with it.
    pub fn begins(&self, other: &Front) -> bool
        requires { other.now.book ≡ self.now.book }
        ensures number { MatchBool result (length self.now.list ≤ length other.now.list) (length other.now.list < length self.now.list) }
        ensures prefix { MatchBool result (IsPrefix self.now.list other.now.list) (IsPrefix other.now.list self.now.list) }
    {
        if self.count <= other.count {
            self.begins_longer(other);
            return true;
        }
        other.begins_longer(self);
        false
    }

    /// Of two beginnings of one list the shorter one begins the other.
    fn begins_longer(&self, other: &Front)
        requires book { other.now.book ≡ self.now.book }
        requires shorter { length self.now.list ≤ length other.now.list }
        ensures { IsPrefix self.now.list other.now.list }
    {
        let mut both = self.seen.again();
        both.learn(&other.seen);
    }

    /// Adds a view after all that was seen, and says whether it did. It did not where the list is longer.
    pub(crate) fn add(&mut self, shelf: &Shelf, view: &Snapshot<Shown>) -> bool
        requires room { length self.old.list < 2 ^ 63 }
        requires shelf { shelf.now ≡ self.old.book }
        ensures book { self.new.book ≡ self.old.book }
        ensures list { MatchBool result (self.new.list ≡ self.old.list ++ view.now.value ∷ []) (GoesOn self.old.list self.new.list) }
    {
        let mut offer: Offer<Shown, u64, Law, Nothing> = self
            .seen
            .plain::<Nothing, Snapshot<Shown>, Add>(view);
        let mut pen = self.seen.no_pen();
        let count = self.count;
        let found = shelf
            .head
            .compare_exchange::<Add, Nothing>(
                count,
                count + 1,
                &mut self.seen,
                &mut offer,
                &mut pen,
            );
        self.count = if found == count { count + 1 } else { found };
        found == count
    }
}
