//! The writer.

ghost use Rattle.std.specs.Prelude.{◌≡◌, ◌≤◌, ◌<◌, ◌+◌, ◌^◌, ◌++◌, ◌∷◌, [], length, Some, None, IsSome, MatchOption, OnOk, OnErr, true, false};
ghost use Rattle.std.specs.Arc.{arc_value};
ghost use Rattle.active_snapshot.specs.States.{all_published, first_written, with_kept};
ghost use Rattle.active_snapshot.specs.Views.{AreViews, ComesNext, IsLast, with_proposal};

use crate::book::{Naming, Shelf};
use crate::note::SnapNote;
use crate::reader::{Of, OfBook};
use crate::slot::Slot;
use crate::view::Shown;
use cfg_base::NoMemory;
use left_right::writer::Writer;
use std::alloc::Global;
use std::marker::Model;
use std::mem::replace;
use std::sync::{Arc, Wait};

/// Keeps and publishes views, one after another. It is not `Drop`: end it by `end`.
pub struct SnapWriter<J: Naming> {
    writer: Option<Writer<Slot, Slot, u8, Of<J>>>,
    shelf: Shelf,
    slot: Slot,
    proposal: Option<Arc<Shown, Global>>,
    late: bool,
    published: u64,
    /// Views that were the last one and that others may have still.
    past: Vec<Arc<Shown, Global>>,
}

impl<J: Naming> Model for SnapWriter<J> {
    ghost use Rattle.std.specs.Prelude.{◌≡◌, ◌≤◌, length, false, IfSome, MatchOption};
    ghost use Rattle.std.specs.Arc.{arc_value};
    ghost use Rattle.std.specs.Option.{option_map};
    ghost use Rattle.std.specs.Coded.{codes};
    ghost use Rattle.cfg_tree.specs.Statements.{statements_code};
    ghost use Rattle.active_snapshot.specs.States.{WriterView};
    ghost use Rattle.active_snapshot.specs.Views.{AreFirst, ComesNext};

    ghost Value = { WriterView };

    ghost coded = { Prim.hlevel (codes, statements_code) };

    ghost view = { λ w. record {
      list = w.slot.list;
      proposal = option_map (λ shown. arc_value shown) w.proposal;
      late = w.late;
      published = w.published;
    } };

    ghost invariant = { λ w. (w.slot.book ≡ J.book) × (w.shelf ≡ J.book)
        × IfSome w.proposal (λ shown. ComesNext w.slot.list (arc_value shown))
        × (w.published ≤ length w.slot.list) × (w.late ≡ false → w.published ≡ length w.slot.list)
        × MatchOption w.writer ⊥ (λ writer. AreFirst w.published w.slot.list writer.desk.shown.value.list) };
}

/// Puts a value where there is none.
fn put_back<T>(place: &mut Option<T>, value: T)
    requires { place.old ≡ None }
    ensures { place.new ≡ Some value }
{
    let nothing = place.replace(value);
    let None = nothing else { unreachable!() };
}

/// Publishes a slot after whatever waits, and says whether it did.
fn publish_slot<J: Naming, R: Wait>(
    rt: &R,
    writer: &mut Option<Writer<Slot, Slot, u8, Of<J>>>,
    slot: Slot,
) -> bool
    requires book { slot.book ≡ J.book }
    requires there { IsSome writer.old }
    ensures done { result ≡ true → MatchOption writer.new ⊥ (λ writer. writer.desk.shown.value ≡ slot) }
    ensures kept { result ≡ false → MatchOption writer.old ⊥ (λ old. MatchOption writer.new ⊥
        (λ new. new.desk.shown.value ≡ old.desk.shown.value)) }
{
    let Some(mut open) = writer.take() else {
        unreachable!()
    };
    match open.append(slot) {
        Ok(()) => {
            let (open, done) = open.publish_as::<OfBook<J>, R>(rt);
            put_back(writer, open);
            done.is_ok()
        }
        Err(_) => {
            put_back(writer, open);
            false
        }
    }
}

/// Lays a view by that was the last one, and drops those that nobody else has any more. So it is the writer that gives the memory of
/// a view back: readers that did would take what belongs to the writer's thread for their own, and wait there for one another.
fn lay_by(past: &mut Vec<Arc<Shown, Global>>, last: Slot) {
    past.retain(|view| Arc::strong_count(view) > 1);
    let Slot { shown, front: _ } = last;
    if past.reserve(1).is_ok() {
        past.push_reserved(shown);
    }
}

impl<J: Naming> SnapWriter<J> {
    /// A writer whose first view is published.
    pub(crate) fn of(
        alloc: Global,
        writer: Writer<Slot, Slot, u8, Of<J>>,
        shelf: Shelf,
        slot: Slot,
    ) -> SnapWriter<J>
        requires book { (slot.book ≡ J.book) × (shelf ≡ J.book) }
        requires one { length slot.list ≡ 1 }
        requires shown { writer.desk.shown.value ≡ slot }
        ensures { result ≡ record { list = slot.list; proposal = None; late = false; published = 1 } }
    {
        SnapWriter {
            writer: Some(writer),
            shelf,
            slot,
            proposal: None,
            late: false,
            published: 1,
            past: Vec::new(alloc),
        }
    }

    /// Makes a view ready to be kept, in the place of one that was. No reader sees it.
    pub fn propose(&mut self, alloc: Global, next: Shown) -> Result<(), NoMemory>
        requires on_time { self.old.late ≡ false }
        requires next { ComesNext self.old.list next }
        ensures ok { OnOk result (self.new ≡ record self.old { proposal = Some next }) }
        ensures err { OnErr result (self.new ≡ self.old) }
    {
        self.proposal = Some(Arc::new(alloc, next)?);
        Ok(())
    }

    /// Drops the proposal.
    pub fn withdraw(&mut self)
        ensures { self.new ≡ record self.old { proposal = None } }
    {
        self.proposal = None;
    }

    /// Whether the last view that was kept isn't published yet. Where it is, all are.
    pub fn is_late(&self) -> bool
        ensures late { result ≡ self.now.late }
        ensures whole { result ≡ false → self.now.published ≡ length self.now.list }
    {
        self.late
    }

    /// How far the list of views goes, and how many are published: all of them, unless the writer is late.
    pub fn note(&self) -> SnapNote<J>
        ensures told { result ≡ record { list = self.now.list; published = self.now.published } }
        ensures views { AreViews self.now.list }
        ensures within { self.now.published ≤ length self.now.list }
        ensures whole { self.now.late ≡ false → self.now.published ≡ length self.now.list }
    {
        SnapNote::of(self.slot.front.again(), self.published)
    }

    /// The last view that was kept.
    pub fn view(&self) -> &Arc<Shown, Global>
        ensures last { IsLast self.now.list (arc_value result.now) }
        ensures views { AreViews self.now.list }
    {
        &self.slot.shown
    }

    /// Keeps the proposal, where there is one, and publishes the last view that is kept. It may wait for readers that are inside
    /// a read. After a refusal the proposal is kept and not yet published.
    pub fn keep<R: Wait>(&mut self, rt: &R) -> Result<(), NoMemory>
        ensures ok { OnOk result (self.new ≡ all_published (with_kept self.old)) }
        ensures err { OnErr result (self.new ≡ record (with_kept self.old) { late = true }) }
    {
        self.take_in(rt);
        self.publish(rt)
    }

    /// Keeps the proposal. Nobody else adds to the list, which no proof here knows: it would wait for ever.
    pub(crate) fn take_in<R: Wait>(&mut self, rt: &R)
        ensures { self.new ≡ record (with_kept self.old) { late = true } }
    {
        self.late = true;
        let Some(shown) = self.proposal.take() else {
            return;
        };
        let Some(slot) = self.slot.with(&self.shelf, shown) else {
            for _ in rt.forever() {}
            unreachable!()
        };
        lay_by(&mut self.past, replace(&mut self.slot, slot));
    }

    /// Shows readers what was kept.
    fn publish<R: Wait>(&mut self, rt: &R) -> Result<(), NoMemory>
        requires { self.old.late ≡ true }
        ensures ok { OnOk result (self.new ≡ all_published self.old) }
        ensures err { OnErr result (self.new ≡ self.old) }
    {
        let Ok(slot) = self.slot.again() else {
            return Err(NoMemory);
        };
        if !publish_slot(rt, &mut self.writer, slot) {
            return Err(NoMemory);
        }
        self.published = self.slot.len();
        self.late = false;
        Ok(())
    }

    /// Ends the writer. It may wait for readers that are inside a read.
    pub fn end<R: Wait>(self, rt: &R) {
        let SnapWriter {
            writer,
            shelf: _,
            slot: _,
            proposal: _,
            late: _,
            published: _,
            past: _,
        } = self;
        match writer {
            Some(writer) => {
                writer.take(rt);
            }
            None => {}
        }
    }
}
