ghost use Rattle.std.specs.Prelude.{◌≡◌, ◌≤◌, ◌<◌, ◌+◌, length, None, IfOk, IfErr, IfSome, OnOk, OnErr};
ghost use Rattle.disk_model.specs.Pair.{pair_of};
ghost use Rattle.commit_journal.specs.Journal.{disk_a, disk_b, disks_of};
ghost use Rattle.commit_ledger.specs.Kept.{append_entry, moment_of};
ghost use Rattle.stored_ledger.specs.declared.change.Change.TheVariants.{Entry as EntryMore, Whole as WholeList};
ghost use Rattle.stored_ledger.specs.Growing.{answer_of};
ghost use Rattle.stored_ledger.specs.Standing.{CanKeep};
ghost use Rattle.stored_ledger.specs.Starting.{IsFound, IsNotFound};
ghost use Rattle.stored_ledger.specs.Stored.{IsNext};
ghost use Rattle.sync_link.specs.Takes.{Answers, CanAdd, CanFollow, Fits, FitsIn, HasRoom, Takes};
ghost use Rattle.sync_link.specs.Views.{IsBegun, Moved, Moves, SettlesIn};
ghost use Rattle.sync_link.specs.declared.message.Message.TheVariants.{Offer as OfferOf, Whole as WholeOf};

use crate::fault::TakeFault;
use crate::flight::Flight;
use crate::mark::{Mark, Marks};
use crate::message::{Ack, Message};
use crate::noting::{answer_of, change_of, done_of, note};
use cfg_base::{Limits, NoMemory};
use commit_journal::Journal;
use commit_ledger::{Entry, Ledger};
use disk_model::{Disk, DiskDone};
use std::alloc::Global;
use std::marker::Model;
use stored_ledger::{StartFault, Stored, add_entry, replace_list, settle_list};

/// How many calls of a list one message makes at most.
const CALLS: usize = 2;

/// A list of commits on two disks of its own, which takes the messages of a master.
#[derive(Drop)]
pub struct Backup<D: Disk> {
    alloc: Global,
    journal: Journal<D>,
    ledger: Ledger,
    flight: Option<Flight>,
    marks: Vec<Mark>,
    events: u64,
}

impl<D: Disk> Model for Backup<D> {
    ghost use Rattle.std.specs.Prelude.{vec_capacity};
    ghost use Rattle.std.specs.Coded.{codes};
    ghost use Rattle.cfg_tree.specs.Statements.{statements_code};
    ghost use Rattle.sync_link.specs.Views.{BackupView, CanLand, IsBackup, flight_of};

    ghost Value = { BackupView };

    ghost coded = { Prim.hlevel (codes, statements_code) };

    ghost view = { λ b. record {
      files = b.journal;
      kept = b.ledger;
      flight = flight_of b.ledger b.flight;
      marks = b.marks.items;
      room = vec_capacity b.marks;
      events = b.events;
    } };

    ghost invariant = { λ b. IsBackup (record {
      files = b.journal;
      kept = b.ledger;
      flight = flight_of b.ledger b.flight;
      marks = b.marks.items;
      room = vec_capacity b.marks;
      events = b.events;
    }) × CanLand b.ledger b.flight };
}

/// What a list keeps by its type: it has room for an entry that may be the next one of a list that is alike.
fn can_take_in(ledger: &Ledger, entry: &Entry)
    requires { CanFollow ledger.now entry.now }
    ensures { HasRoom ledger.now entry.now }
{
    let _ = entry;
    let _ = ledger.last();
    let _ = ledger.pending();
    let _ = ledger.scheduled();
}

/// The list with one more entry.
fn list_with(alloc: Global, ledger: &Ledger, entry: &Entry) -> Result<Ledger, NoMemory>
    requires { HasRoom ledger.now entry.now }
    ensures { IfOk result (λ list. list ≡ append_entry ledger.now entry.now) }
{
    let mut list = ledger.copy(alloc)?;
    let ready = list.prepare(entry.copy()?)?;
    list.accept(ready);
    Ok(list)
}

impl<D: Disk> Backup<D> {
    /// Opens the list of commits that two disks hold. It leaves their contents as they were.
    pub fn start(alloc: Global, a: D, b: D, limits: Limits) -> Result<Backup<D>, StartFault<D>>
        ensures begun { IfOk result (λ backup. IsBegun (pair_of D.view a b) limits.journal backup) }
        ensures found { IfOk result (λ backup. IsFound (pair_of D.view a b) (disks_of backup.files) backup.kept) }
        ensures err { IfErr result (λ fault.
            IsNotFound (pair_of D.view a b) fault.why (pair_of D.view fault.a fault.b)) }
    {
        match Stored::open(alloc, a, b, limits) {
            Err(fault) => Err(fault),
            Ok(stored) => {
                let Stored { journal, ledger } = stored;
                Ok(Backup {
                    alloc,
                    journal,
                    ledger,
                    flight: None,
                    marks: Vec::new(alloc),
                    events: 0,
                })
            }
        }
    }

    /// The number of entries in its list, without one in flight.
    pub fn count(&self) -> u64
        ensures { result ≡ self.now.kept.count }
    {
        self.ledger.count()
    }

    /// Says how many events the master's history has.
    pub fn at(&mut self, events: u64)
        ensures { self.new ≡ record self.old { events = events } }
    {
        self.events = events;
    }

    /// The disks, and the marks of all calls of the list.
    pub fn into_disks(self) -> (D, D, Marks)
        ensures a { D.view result.0 ≡ disk_a self.files }
        ensures b { D.view result.1 ≡ disk_b self.files }
        ensures marks { result.2 ≡ self.marks }
    {
        let Backup {
            alloc: _,
            journal,
            ledger: _,
            flight: _,
            marks,
            events: _,
        } = self;
        let (a, b) = journal.into_disks();
        (a, b, Marks::of(marks))
    }

    // Room for the marks of one message.
    fn make_room(&mut self) -> Result<(), NoMemory>
        ensures ok { OnOk result ((self.new ≡ record self.old { room = self.new.room }) × (length self.new.marks + 2 ≤ self.new.room)) }
        ensures err { OnErr result (self.new ≡ self.old) }
    {
        match self.marks.reserve(CALLS) {
            Ok(()) => Ok(()),
            Err(_) => Err(NoMemory),
        }
    }

    // Finds out whether what is in flight is made.
    fn settle(&mut self) -> DiskDone
        requires room { length self.old.marks < self.old.room }
        ensures { SettlesIn self.old.flight result self.old self.new }
    {
        let Some(change) = change_of(&self.flight) else {
            return DiskDone::Done;
        };
        let found = settle_list(&mut self.journal, change);
        let calls = self.journal.calls();
        note(
            &mut self.ledger,
            &mut self.flight,
            &mut self.marks,
            self.events,
            calls,
            found,
        );
        done_of(found)
    }

    // Adds an entry that may be the next one.
    fn add(&mut self, entry: &Entry) -> Result<DiskDone, NoMemory>
        requires idle { self.old.flight ≡ None }
        requires room { length self.old.marks < self.old.room }
        requires next { IsNext self.old.kept entry.now }
        requires fits { HasRoom self.old.kept entry.now }
        ensures ok { IfOk result (λ done.
            Moves EntryMore (answer_of done) (append_entry self.old.kept entry.now) self.old self.new) }
        ensures err { OnErr result (self.new ≡ self.old) }
    {
        let ready = self.ledger.prepare(entry.copy()?)?;
        match add_entry(self.alloc, &mut self.journal, &self.ledger, entry) {
            Err(NoMemory) => Err(NoMemory),
            Ok(done) => {
                let calls = self.journal.calls();
                self.flight = Some(Flight::Entry(ready));
                note(
                    &mut self.ledger,
                    &mut self.flight,
                    &mut self.marks,
                    self.events,
                    calls,
                    answer_of(done),
                );
                Ok(done)
            }
        }
    }

    // Puts a list in the place of its list.
    fn replace(&mut self, whole: Ledger) -> Result<DiskDone, NoMemory>
        requires idle { self.old.flight ≡ None }
        requires room { length self.old.marks < self.old.room }
        requires no_fewer { self.old.kept.count ≤ whole.count }
        requires keeps { CanKeep whole }
        ensures ok { IfOk result (λ done. Moves WholeList (answer_of done) whole self.old self.new) }
        ensures err { OnErr result (self.new ≡ self.old) }
    {
        match replace_list(self.alloc, &mut self.journal, &whole) {
            Err(NoMemory) => Err(NoMemory),
            Ok(done) => {
                let calls = self.journal.calls();
                self.flight = Some(Flight::Whole(whole));
                note(
                    &mut self.ledger,
                    &mut self.flight,
                    &mut self.marks,
                    self.events,
                    calls,
                    answer_of(done),
                );
                Ok(done)
            }
        }
    }

    // Writes the list with one more entry anew.
    fn replace_with(&mut self, entry: &Entry) -> Result<DiskDone, NoMemory>
        requires idle { self.old.flight ≡ None }
        requires room { length self.old.marks < self.old.room }
        requires keeps { CanKeep (append_entry self.old.kept entry.now) }
        requires fits { HasRoom self.old.kept entry.now }
        ensures ok { IfOk result (λ done.
            Moves WholeList (answer_of done) (append_entry self.old.kept entry.now) self.old self.new) }
        ensures err { OnErr result (self.new ≡ self.old) }
    {
        match list_with(self.alloc, &self.ledger, entry) {
            Err(NoMemory) => Err(NoMemory),
            Ok(list) => self.replace(list),
        }
    }

    // Adds an entry. Where the list's last moment is later than the entry's, as it may be behind a confirmation that the master's list
    // has no more since it was written anew, the list with it is written anew too: it has the moment of the last commit then.
    fn append(&mut self, entry: &Entry) -> Result<DiskDone, NoMemory>
        requires idle { self.old.flight ≡ None }
        requires room { length self.old.marks < self.old.room }
        requires adds { CanAdd self.old.kept entry.now }
        ensures ok { IfOk result (λ done.
            Moved (answer_of done) (append_entry self.old.kept entry.now) self.old self.new) }
        ensures err { OnErr result (self.new ≡ self.old) }
    {
        can_take_in(&self.ledger, entry);
        if entry.moment() < self.ledger.moment() {
            self.replace_with(entry)
        } else {
            self.add(entry)
        }
    }

    fn ack(&self) -> Ack
        ensures { result.count ≡ self.now.kept.count }
    {
        Ack {
            count: self.ledger.count(),
        }
    }

    // What an entry for a place makes of the list, with nothing in flight.
    fn take_offer(&mut self, place: u64, entry: &Entry) -> Result<Ack, TakeFault>
        requires idle { self.old.flight ≡ None }
        requires room { length self.old.marks < self.old.room }
        requires adds { place ≡ self.old.kept.count → CanAdd self.old.kept entry.now }
        ensures { Answers (OfferOf place entry.now) result self.old self.new }
    {
        if place != self.ledger.count() {
            return Ok(self.ack());
        }
        match self.append(entry) {
            Ok(DiskDone::Done) => Ok(self.ack()),
            Ok(DiskDone::Failed) => Err(TakeFault::DiskFault),
            Err(NoMemory) => Err(TakeFault::NoMemory),
        }
    }

    // Puts a copy of a longer list in the place of its list.
    fn copy_whole(&mut self, whole: &Ledger) -> Result<DiskDone, NoMemory>
        requires idle { self.old.flight ≡ None }
        requires room { length self.old.marks < self.old.room }
        requires longer { self.old.kept.count < whole.now.count }
        requires keeps { CanKeep whole.now }
        ensures ok { IfOk result (λ done. Moved (answer_of done) whole.now self.old self.new) }
        ensures err { OnErr result (self.new ≡ self.old) }
    {
        match whole.copy(self.alloc) {
            Err(NoMemory) => Err(NoMemory),
            Ok(copy) => self.replace(copy),
        }
    }

    // What a whole list makes of it.
    fn take_whole(&mut self, whole: &Ledger) -> Result<Ack, TakeFault>
        requires idle { self.old.flight ≡ None }
        requires room { length self.old.marks < self.old.room }
        requires keeps { self.old.kept.count < whole.now.count → CanKeep whole.now }
        ensures { Answers (WholeOf whole.now) result self.old self.new }
    {
        if whole.count() <= self.ledger.count() {
            return Ok(self.ack());
        }
        match self.copy_whole(whole) {
            Ok(DiskDone::Done) => Ok(self.ack()),
            Ok(DiskDone::Failed) => Err(TakeFault::DiskFault),
            Err(NoMemory) => Err(TakeFault::NoMemory),
        }
    }

    // What a message makes of it.
    fn answer(&mut self, message: &Message) -> Result<Ack, TakeFault>
        requires idle { self.old.flight ≡ None }
        requires room { length self.old.marks < self.old.room }
        requires fits { Fits self.old.kept message.now }
        ensures { Answers message.now result self.old self.new }
    {
        match message {
            Message::Ask => Ok(self.ack()),
            Message::Offer { place, entry } => self.take_offer(*place, entry),
            Message::Whole { ledger } => self.take_whole(ledger),
        }
    }

    /// Takes a message, and tells how many entries the list then has. What was in flight is settled first.
    pub fn take(&mut self, message: &Message) -> Result<Ack, TakeFault>
        requires { FitsIn self.old message.now }
        ensures { Takes message.now result self.old self.new }
    {
        if let Err(NoMemory) = self.make_room() {
            return Err(TakeFault::NoMemory);
        }
        match self.settle() {
            DiskDone::Failed => Err(TakeFault::DiskFault),
            DiskDone::Done => self.answer(message),
        }
    }
}
