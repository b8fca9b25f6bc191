//! The lock and its passes.

ghost use Rattle.std.specs.Prelude.{◌≡◌, ◌+◌, ◌<◌, ◌≤◌, [], length, IfOk, IfErr};
ghost use Rattle.turn_lock.specs.Passes.{IsClosed, first_pass, with_split, split_pass, with_ended};

use crate::bell::Bells;
use crate::book::Book;
use crate::pass::Pass;
use crate::rule::{Opening, Rule, SplitOff, TakeIn};
use crate::view::View;
use atomic_table::{Badge, Refused, Table};
use std::alloc::Global;
use std::marker::Model;
use std::mem::replace;
use std::snapshot::Snapshot;

/// A lock over a value. Contracts see which lock it is.
pub struct Turns<T: Book> {
    pub(crate) table: Table<Option<T>, View<T::Entry, T::Fixed>, Opening<T>, Rule<T>, Global>,
    pub(crate) bells: Bells,
}

impl<T: Book> Model for Turns<T> {
    ghost use Rattle.std.specs.Prelude.{◌≡◌};
    ghost use Rattle.atomic_table.specs.Seated.{TableId, table_id_coded};

    ghost Value = { TableId };

    ghost coded = { table_id_coded };

    ghost view = { λ t. t.table.shared.table_id };

    ghost invariant = { λ t. (t.table.shared.table_id.words ≡ 3) × (t.table.shared.table_id.slots ≡ 1) };
}

/// There was no memory. The value comes back.
pub struct NoTurns<T> {
    pub value: T,
}

impl<T: Book> Turns<T> {
    /// A lock over the value, and the pass of caller 0. There may be so many callers in all.
    pub fn new(
        alloc: Global,
        value: T,
        callers: u32,
    ) -> Result<(Turns<T>, Pass<T::Entry, T::Fixed>), NoTurns<T>>
        requires callers { 1 ≤ callers }
        requires empty { T.history value ≡ [] }
        ensures ok { IfOk result (λ made. made.1 ≡ first_pass made.0 (T.fixed value) callers) }
        ensures err { IfErr result (λ none. none.value ≡ value) }
    {
        let Some(bells) = Bells::make(alloc, callers) else {
            return Err(NoTurns { value });
        };
        let opening = Opening {
            value: Snapshot::of(&value),
            callers,
        };
        let mut slots = Vec::new(alloc);
        if slots.reserve(1).is_err() {
            slots.destroy_empty();
            return Err(NoTurns { value });
        }
        slots.push_reserved(Some(value));
        match Table::new(alloc, &[0, 0, 0], slots, &opening) {
            Ok((table, seat)) => Ok((
                Turns { table, bells },
                Pass {
                    badge: seat.into_badge(),
                    caller: 0,
                    splits: 0,
                },
            )),
            Err(Refused { mut slots }) => {
                let Some(Some(value)) = slots.pop() else {
                    unreachable!()
                };
                slots.destroy_empty();
                Err(NoTurns { value })
            }
        }
    }

    /// A pass for the next caller.
    pub fn split(&self, first: &mut Pass<T::Entry, T::Fixed>) -> Pass<T::Entry, T::Fixed>
        requires here { first.old.lock ≡ self.now }
        requires first { first.old.caller ≡ 0 }
        requires room { first.old.splits + 1 < first.old.callers }
        ensures first { first.new ≡ with_split first.old }
        ensures new { result ≡ split_pass first.old }
    {
        let mut seat = replace(&mut first.badge, Badge::blank()).into_seat();
        let new = self.table.shared.split_seat::<SplitOff>(&mut seat);
        first.badge = seat.into_badge();
        first.splits += 1;
        Pass {
            badge: new.into_badge(),
            caller: first.splits,
            splits: 0,
        }
    }

    /// Ends a pass, of which the first pass keeps what it had seen and made.
    pub fn join(&self, first: &mut Pass<T::Entry, T::Fixed>, ended: Pass<T::Entry, T::Fixed>)
        requires here { (first.old.lock ≡ self.now) × (ended.lock ≡ self.now) }
        requires first { first.old.caller ≡ 0 }
        ensures { first.new ≡ with_ended first.old ended }
    {
        let mut seat = replace(&mut first.badge, Badge::blank()).into_seat();
        let Pass {
            badge,
            caller: _,
            splits: _,
        } = ended;
        let ended = badge.into_seat();
        self.table.shared.join_seat::<TakeIn>(&mut seat, ended);
        first.badge = seat.into_badge();
    }

    /// Ends the lock and gives back its value.
    pub fn close(self, first: Pass<T::Entry, T::Fixed>) -> T
        requires here { first.lock ≡ self }
        requires first { first.caller ≡ 0 }
        requires all { length first.ended ≡ first.splits }
        ensures { IsClosed T.history T.caller_of T.fixed first result }
    {
        let Turns { table, bells: _ } = self;
        let Pass {
            badge,
            caller: _,
            splits: _,
        } = first;
        let mut closed = table.close_with(badge.into_seat());
        let Some(value) = closed.take(0) else {
            unreachable!()
        };
        closed.free();
        value
    }
}
