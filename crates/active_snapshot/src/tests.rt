//! A writer and two readers, step by step: what each of them reads after each step.

ghost use Rattle.std.specs.Prelude.{◌≡◌, [], length, IfOk};
ghost use Rattle.active_snapshot.specs.Views.{IsNextView};

use crate::{
    Front, Naming, Read, Shelf, Shown, SnapReader, SnapReaders, SnapWriter, open_book, shown,
};
use cfg_base::{Moment, NoMemory, UserName, Word};
use cfg_tree::{Full, Tree};
use commit_ledger::{Commit, Entry, Ledger, Via};
use group_expand::expand;
use std::alloc::Global;
use std::marker::Brand;
use std::process::Abort;
use std::sync::{Arc, Wait};

/// One step of the writer, or what both readers are told.
#[derive(Clone, Copy, Debug, PartialEq, Eq)]
enum Step {
    /// A commit at moment 60 that must be confirmed within so many minutes.
    Propose(u32),
    Withdraw,
    Keep,
    /// Keeps and does not publish.
    TakeIn,
    /// The first reader is told how far the list goes, and the second one is handed the last view too.
    Tell,
}

/// Each step, and what the readers answer at a moment after it: the front, and 0 or the deadline that was missed; `(0, 0)` where
/// there is no answer.
const STEPS: [(Step, u64, (u64, u64), (u64, u64)); 12] = [
    // no reader sees what is proposed, and what is withdrawn is never kept
    (Step::Propose(1), 500, (1, 0), (1, 0)),
    (Step::Withdraw, 500, (1, 0), (1, 0)),
    (Step::Keep, 500, (1, 0), (1, 0)),
    // the second proposal takes the place of the first one, and is seen once it is kept
    (Step::Propose(1), 500, (1, 0), (1, 0)),
    (Step::Propose(2), 500, (1, 0), (1, 0)),
    // its deadline is at 60 + 2 * 60 seconds
    (Step::Keep, 179, (2, 0), (2, 0)),
    (Step::Tell, 180, (2, 180), (2, 180)),
    // a view that isn't published yet is seen by whoever was handed it; who was only told has no answer
    (Step::Propose(0), 180, (2, 180), (2, 180)),
    (Step::TakeIn, 180, (2, 180), (2, 180)),
    (Step::Tell, 180, (0, 0), (3, 0)),
    (Step::Keep, 180, (3, 0), (3, 0)),
    (Step::Tell, 180, (3, 0), (3, 0)),
];

/// The view after one more commit of no statement.
fn next_view(alloc: Global, view: &Shown, minutes: u32) -> Result<Shown, NoMemory>
    ensures { IfOk result (IsNextView view.now) }
{
    let front = view.front();
    if front >= 1000 {
        return Err(NoMemory);
    }
    let tree = Tree::empty(alloc);
    let Ok(full) = expand(alloc, &tree) else {
        return Err(NoMemory);
    };
    let entry = Entry::Commit(Commit {
        number: front + 1,
        user: UserName::root(alloc)?,
        via: Via::Cli,
        moment: Moment::of(60),
        comment: Word::empty(alloc),
        tree,
        minutes,
    });
    match view.then(alloc, &entry, Some(full)) {
        Ok(next) => Ok(next),
        Err(NoMemory) => Err(NoMemory),
    }
}

fn propose<J: Naming>(
    alloc: Global,
    writer: &mut SnapWriter<J>,
    minutes: u32,
) -> Result<(), NoMemory> {
    if writer.is_late() {
        return Err(NoMemory);
    }
    let next = next_view(alloc, writer.view(), minutes)?;
    writer.propose(alloc, next)
}

fn tell<J: Naming>(
    writer: &SnapWriter<J>,
    one: &mut SnapReader<J>,
    two: &mut SnapReader<J>,
) -> Result<(), NoMemory> {
    one.learn(&writer.note(), None);
    let view = Arc::try_clone(writer.view())?;
    two.learn(&writer.note(), Some(view));
    Ok(())
}

fn take_step<J: Naming, R: Wait>(
    rt: &R,
    alloc: Global,
    step: Step,
    writer: &mut SnapWriter<J>,
    one: &mut SnapReader<J>,
    two: &mut SnapReader<J>,
) -> Result<(), NoMemory> {
    match step {
        Step::Propose(minutes) => propose(alloc, writer, minutes),
        Step::Withdraw => {
            writer.withdraw();
            Ok(())
        }
        Step::Keep => writer.keep(rt),
        Step::TakeIn => {
            writer.take_in(rt);
            Ok(())
        }
        Step::Tell => tell(writer, one, two),
    }
}

fn read_at<J: Naming>(reader: &mut SnapReader<J>, seconds: u64) -> (u64, u64) {
    match reader.read(Moment::of(seconds)) {
        Ok(Read::Due { front, deadline }) => (front, deadline),
        Ok(Read::At { front, view: _ }) => (front, 0),
        Err(NoMemory) => (0, 0),
    }
}

fn first_view(alloc: Global) -> Result<Shown, NoMemory> {
    let ledger = Ledger::factory(alloc)?;
    match expand(alloc, ledger.active()) {
        Ok(full) => Shown::first(alloc, &ledger, full),
        Err(_) => Err(NoMemory),
    }
}

fn two_of<J: Naming>(readers: SnapReaders<J>) -> (SnapReader<J>, SnapReader<J>)
    requires { length readers ≡ 2 }
{
    let mut readers = readers;
    let (Some(one), Some(two)) = (readers.take(), readers.take()) else {
        unreachable!()
    };
    (one, two)
}

fn run<J: Naming, R: Abort + Wait>(rt: &R, alloc: Global, shelf: Shelf, front: Front)
    requires book { (front.book ≡ J.book) × (shelf ≡ J.book) }
    requires empty { front.list ≡ [] }
{
    let first = first_view(alloc).expect(rt, "memory");
    let (mut writer, readers) = shown::<J>(alloc, shelf, front, first, 2).expect(rt, "memory");
    let (mut one, mut two) = two_of(readers);
    for (step, moment, first, second) in STEPS {
        take_step(rt, alloc, step, &mut writer, &mut one, &mut two).expect(rt, "memory");
        assert_eq!(rt;
            read_at(&mut one, moment),
            first,
            "the first reader after {step:?}"
        );
        assert_eq!(rt;
            read_at(&mut two, moment),
            second,
            "the second reader after {step:?}"
        );
    }
    writer.end(rt);
}

#[test]
fn readers_see_what_is_kept(rt: HostRuntime) {
    let (shelf, front) = open_book();
    run::<Brand, HostRuntime>(&rt, rt.alloc(), shelf, front);
}
