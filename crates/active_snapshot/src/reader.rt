//! The readers.

ghost use Rattle.std.specs.Prelude.{◌≡◌, ◌≤◌, ◌<◌, ◌⊎◌, ◌++◌, ◌∷◌, [], length, nat_le, ◌&&◌, true, false, IfOk, IsErr, OnOk, IfSome, IsSome, MatchBool, MatchOption};
ghost use Rattle.std.specs.Arc.{arc_value};
ghost use mathlib.Core.List.{IsPrefix};
ghost use Rattle.active_snapshot.specs.Reads.{HandsOut, IsAnswer, IsReadOf, MayWant};
ghost use Rattle.commit_ledger.specs.Kept.{is_revert_due};
ghost use Rattle.active_snapshot.specs.Views.{IsLast, IsLonger};

use crate::book::{Front, Naming};
use crate::note::SnapNote;
use crate::slot::Slot;
use crate::view::Shown;
use cfg_base::{Moment, NoMemory};
use crossbeam_utils::rule::{Outcome, Protocol};
use left_right::reader::{Factory, Reader};
use std::alloc::Global;
use std::marker::{Model, PhantomData};
use std::sync::Arc;

/// The readers' own rule says only of which book the published view is.
pub struct Of<J> {
    of: PhantomData<J>,
}

impl<J: Naming> Protocol<Slot, u8> for Of<J> {
    ghost holds = { λ slot views. slot.book ≡ J.book };

    ghost first = { 0 };
}

/// What a step of the writer or of a reader reports.
pub(crate) struct OfBook<J> {
    of: PhantomData<J>,
}

impl<J: Naming> Outcome<Slot, u8> for OfBook<J> {
    ghost then = { λ before old new after. new.book ≡ J.book };
}

/// What a read gives: how many entries it shows, and their view, or the deadline that was missed.
#[derive(Drop)]
pub enum Read {
    Due {
        front: u64,
        deadline: u64,
    },
    At {
        front: u64,
        view: Arc<Shown, Global>,
    },
}

/// Takes views, one after another. It keeps the longest one that it had.
#[derive(Drop)]
pub struct SnapReader<J: Naming> {
    reader: Option<Reader<Slot, u8, Of<J>>>,
    slot: Slot,
    told: Front,
}

impl<J: Naming> Model for SnapReader<J> {
    ghost use Rattle.std.specs.Prelude.{◌≡◌};
    ghost use Rattle.std.specs.Coded.{codes};
    ghost use Rattle.cfg_tree.specs.Statements.{statements_code};
    ghost use Rattle.active_snapshot.specs.States.{ReaderView};

    ghost Value = { ReaderView };

    ghost coded = { Prim.hlevel (codes, statements_code) };

    ghost view = { λ r. record { list = r.slot.list; told = r.told.list } };

    ghost invariant = { λ r. (r.slot.book ≡ J.book) × (r.told.book ≡ J.book) };
}

/// The answer of a view at a moment.
fn answer_of(shown: &Arc<Shown, Global>, moment: Moment) -> Result<Read, NoMemory>
    ensures ok { IfOk result (IsAnswer (arc_value shown.now) moment) }
    ensures err { IsErr result → is_revert_due (arc_value shown.now) moment ≡ false }
{
    let front = shown.front();
    let due = shown.is_revert_due(moment);
    match shown.pending() {
        Some(pending) if due => Ok(Read::Due {
            front,
            deadline: pending.deadline,
        }),
        _ => Ok(Read::At {
            front,
            view: Arc::try_clone(shown)?,
        }),
    }
}

impl Slot {
    /// Whether it is as long as what was reported, or longer.
    fn reaches(&self, told: &Front) -> bool
        requires { told.now.book ≡ self.now.book }
        ensures prefix { MatchBool result (IsPrefix told.now.list self.now.list) (IsPrefix self.now.list told.now.list) }
        ensures number { MatchBool result (length told.now.list ≤ length self.now.list) (length self.now.list < length told.now.list) }
    {
        told.begins(&self.front)
    }

    /// The answer of its view.
    fn answer(&self, moment: Moment) -> Result<Read, NoMemory>
        ensures ok { IfOk result (IsReadOf self.now.list moment) }
        ensures err { IsErr result → HandsOut self.now.list moment }
    {
        answer_of(&self.shown, moment)
    }
}

/// Keeps the view that was found, where it is longer.
fn keep_longer(kept: &mut Slot, found: &Slot) -> Result<(), NoMemory>
    requires { found.now.book ≡ kept.old.book }
    ensures book { kept.new.book ≡ kept.old.book }
    ensures later { IsPrefix kept.old.list kept.new.list }
    ensures found { OnOk result (IsPrefix found.now.list kept.new.list) }
{
    if kept.reaches(&found.front) {
        return Ok(());
    }
    let Ok(longer) = found.again() else {
        return Err(NoMemory);
    };
    *kept = longer;
    Ok(())
}

impl<J: Naming> SnapReader<J> {
    /// A reader that begins with a view, and answers from what it keeps until it has a seat.
    pub(crate) fn of(slot: Slot) -> SnapReader<J>
        requires { slot.book ≡ J.book }
        ensures { result ≡ record { list = slot.list; told = slot.list } }
    {
        let told = slot.front.again();
        SnapReader {
            reader: None,
            slot,
            told,
        }
    }

    /// Takes a seat, where `left_right` gives one.
    pub(crate) fn seat(&mut self, factory: &Factory<Slot, u8, Of<J>>)
        ensures { self.new ≡ self.old }
    {
        self.reader = factory.reader().ok();
    }

    /// Keeps what is published, where it is longer and can be counted once more. A refused entry changes nothing.
    fn look(&mut self)
        ensures later { IsPrefix self.old.list self.new.list }
        ensures told { self.new.told ≡ self.old.told }
    {
        let Some(reader) = self.reader.take() else {
            return;
        };
        match reader.enter_as::<OfBook<J>>() {
            Ok(reading) => {
                let _ = keep_longer(&mut self.slot, reading.get());
                self.reader = Some(reading.leave());
            }
            Err(reader) => self.reader = Some(reader),
        }
    }

    /// What the longest view says at a moment. It waits for nobody, and answers from the view that it keeps where `left_right`
    /// refuses it. `NoMemory` comes only where less is published than was reported, or for a view that is handed out.
    pub fn read(&mut self, moment: Moment) -> Result<Read, NoMemory>
        ensures later { IsPrefix self.old.list self.new.list }
        ensures told { self.new.told ≡ self.old.told }
        ensures reached { IfOk result (λ _. IsPrefix self.new.told self.new.list) }
        ensures ok { IfOk result (IsReadOf self.new.list moment) }
        ensures cause { IsErr result → MayWant self.new.list self.new.told moment }
    {
        self.look();
        if !self.slot.reaches(&self.told) {
            return Err(NoMemory);
        }
        self.slot.answer(moment)
    }

    /// Takes in what a writer reported, and the last view of it, where it is given.
    pub fn learn(&mut self, note: &SnapNote<J>, view: Option<Arc<Shown, Global>>)
        requires { IfSome view (λ view. IsLast note.now.list (arc_value view)) }
        ensures told { IsLonger self.old.told note.now.list self.new.told }
        ensures later { IsPrefix self.old.list self.new.list }
        ensures reached { IfSome view (λ _. IsPrefix note.now.list self.new.list) }
        ensures only { (self.new.list ≡ self.old.list) ⊎ (IsSome view × (self.new.list ≡ note.now.list)) }
    {
        if self.told.begins(&note.kept) {
            self.told = note.kept.again();
        }
        if let Some(shown) = view {
            self.keep(Slot {
                shown,
                front: note.kept.again(),
            });
        }
    }

    /// Keeps a view, where it is as long as the kept one or longer.
    fn keep(&mut self, slot: Slot)
        requires { slot.book ≡ J.book }
        ensures list { IsLonger self.old.list slot.list self.new.list }
        ensures told { self.new.told ≡ self.old.told }
    {
        if self.slot.front.begins(&slot.front) {
            self.slot = slot;
        }
    }

    /// How many views there are, up to the kept one.
    pub fn kept(&self) -> u64
        ensures { result ≡ length self.now.list }
    {
        self.slot.len()
    }

    /// Whether all that was read is in the list that a note reports.
    pub fn is_within(&self, note: &SnapNote<J>) -> bool
        ensures within { result ≡ true → IsPrefix self.now.list note.now.list }
        ensures exact { result ≡ nat_le (length self.now.list) (length note.now.list) }
    {
        self.slot.front.begins(&note.kept)
    }

    /// Whether all that was read, and all that was reported of so far, is in the list that a note reports.
    pub fn knows_no_more(&self, note: &SnapNote<J>) -> bool
        ensures within { result ≡ true → IsPrefix self.now.list note.now.list × IsPrefix self.now.told note.now.list }
        ensures exact { result ≡ nat_le (length self.now.list) (length note.now.list)
            && nat_le (length self.now.told) (length note.now.list) }
    {
        self.slot.front.begins(&note.kept) && self.told.begins(&note.kept)
    }
}

/// Readers that are taken one by one, and get a seat when they are.
#[derive(Drop)]
pub struct SnapReaders<J: Naming> {
    readers: Vec<SnapReader<J>>,
    factory: Option<Factory<Slot, u8, Of<J>>>,
}

impl<J: Naming> Model for SnapReaders<J> {
    ghost use Rattle.std.specs.Prelude.{List};
    ghost use Rattle.std.specs.Coded.{codes};
    ghost use Rattle.cfg_tree.specs.Statements.{statements_code};
    ghost use Rattle.active_snapshot.specs.States.{ReaderView};

    ghost Value = { List ReaderView };

    ghost coded = { Prim.hlevel (codes, statements_code) };

    ghost view = { λ r. r.readers.items };
}

impl<J: Naming> SnapReaders<J> {
    /// Readers, and what seats them where `left_right` lends it.
    pub(crate) fn of(
        readers: Vec<SnapReader<J>>,
        factory: Option<Factory<Slot, u8, Of<J>>>,
    ) -> SnapReaders<J>
        ensures { result ≡ readers.items }
    {
        SnapReaders { readers, factory }
    }

    /// No readers.
    pub fn none(alloc: Global) -> SnapReaders<J>
        ensures { result ≡ [] }
    {
        SnapReaders {
            readers: Vec::new(alloc),
            factory: None,
        }
    }

    /// One of the readers, where one is left.
    pub fn take(&mut self) -> Option<SnapReader<J>>
        ensures { MatchOption result ((self.old ≡ []) × (self.new ≡ [])) (λ reader. self.old ≡ self.new ++ reader ∷ []) }
    {
        let mut reader = self.readers.pop()?;
        if let Some(factory) = &self.factory {
            reader.seat(factory);
        }
        Some(reader)
    }
}
