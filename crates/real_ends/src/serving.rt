//! A run over the system's ends and clock, and over the disks that its words name.

ghost use Rattle.std.specs.Prelude.{◌≡◌, ◌≢◌, ◌↔◌, IfOk, OnErr};
ghost use Rattle.command_line.specs.Asked.{Asks};
ghost use Rattle.command_line.specs.declared.asked.Asked.{Asked};
ghost use Rattle.service.specs.Run.{AreEnds, IsAsking};

use crate::claim::Claim;
use crate::disks::{claim_journal, make_disks, no_disks, open_disks};
use crate::edges::{StdEnd, ends_of};
use crate::pace::Pace;
use crate::telling::Came;
use cfg_base::{NoMemory, Words};
use command_line::{Asked, RunMode, Usage, read_words, words_ask_one_thing};
use disk_model::Disk;
use io_edge::StdClock;
use service::{StartWhy0, Ticker, Waker, run};
use std::fs::File;
use std::io::{Read, Write};
use std::rt::{Clock, Files};
use std::sync::Wait;
use std::thread::Threads;

/// The system's clock, and when it is looked at.
fn ticker_of<R>(rt: &R) -> Result<Ticker<Pace<R>, StdClock<R>>, NoMemory>
where
    R: Wait + Clock + AllocGlobal + Clone + Drop,
{
    let waker = Waker::new(rt.alloc())?;
    let beat = Pace::new(rt.clone()?, waker.again()?);
    let clock = StdClock::new(rt.clone()?);
    Ok(Ticker {
        beat,
        clock,
        waker: Some(waker),
    })
}

/// Runs the service over these ends, the system's clock and two disks.
pub fn run_over<R, I, O, D>(
    rt: &R,
    words: &Words,
    ends: Vec<StdEnd<R, I, O>>,
    disks: Result<(D, D), NoMemory>,
) -> Result<Came, NoMemory>
where
    R: Threads + Wait + Sync + Send + Clock + Files + AllocGlobal + Clone + Drop,
    R::File: Send,
    I: Read + Drop + Send,
    O: Write + Drop + Send,
    D: Disk + Drop + Send,
    requires ends { AreEnds words.now ends.items }
    ensures usage { IfOk result (λ came. (came.status ≡ 1) ↔ ((came.status ≢ 9) × (IsAsking words.now → ⊥))) }
{
    let Ok((disk_a, disk_b)) = disks else {
        return Err(NoMemory);
    };
    let Ok(ticker) = ticker_of(rt) else {
        return Err(NoMemory);
    };
    let closed = run(rt, rt.alloc(), words, ends, ticker, disk_a, disk_b);
    Ok(Came {
        status: closed.status,
        why: closed.why,
        in_use: false,
    })
}

/// Runs the service over these ends and the disks that the words name.
fn run_asked<R, I, O>(
    rt: &R,
    words: &Words,
    asked: &Asked,
    ends: Vec<StdEnd<R, I, O>>,
) -> Result<Came, NoMemory>
where
    R: Threads + Wait + Sync + Send + Clock + Files<File = File> + AllocGlobal + Clone + Drop,
    I: Read + Drop + Send,
    O: Write + Drop + Send,
    requires ends { AreEnds words.now ends.items }
    ensures usage { IfOk result (λ came. (came.status ≡ 1) ↔ ((came.status ≢ 9) × (IsAsking words.now → ⊥))) }
{
    match asked.mode {
        RunMode::Init => run_over(rt, words, ends, make_disks(rt, &asked.place)),
        RunMode::Serve | RunMode::Check => run_over(rt, words, ends, open_disks(rt, &asked.place)),
        // Mode gen calls none of the disks that it is handed.
        RunMode::Gen => run_over(rt, words, ends, no_disks(rt.alloc())),
    }
}

/// A run that was not begun, since another service has the journal.
fn in_use() -> Came
    ensures { result.status ≡ 4 }
{
    Came {
        status: 4,
        why: StartWhy0::None,
        in_use: true,
    }
}

/// What a mode claims before anything is opened: to serve is to write, and nobody else may.
fn claim_for<R: Files<File = File> + AllocGlobal>(
    rt: &R,
    asked: &Asked,
) -> Result<Claim, NoMemory> {
    match asked.mode {
        RunMode::Serve => claim_journal(rt, &asked.place),
        RunMode::Init | RunMode::Check | RunMode::Gen => Ok(Claim::Unlocked),
    }
}

/// Does what is asked, where no other service has the journal. The claim stands until the run has ended.
fn serve_claimed<R, I, O>(
    rt: &R,
    words: &Words,
    asked: &Asked,
    input: I,
    output: O,
) -> Result<Came, NoMemory>
where
    R: Threads + Wait + Sync + Send + Clock + Files<File = File> + AllocGlobal + Clone + Drop,
    I: Read + Drop + Send,
    O: Write + Drop + Send,
    requires asks { Asks words.now asked.now }
    ensures usage { IfOk result (λ came. (came.status ≡ 1) ↔ ((came.status ≢ 9) × (IsAsking words.now → ⊥))) }
{
    match claim_for(rt, asked)? {
        Claim::Taken => Ok(in_use()),
        Claim::Held(file) => {
            let came = run_asked(rt, words, asked, ends_of(rt, asked, input, output)?);
            drop(file);
            came
        }
        Claim::Unlocked => run_asked(rt, words, asked, ends_of(rt, asked, input, output)?),
    }
}

/// Does what the words ask, and reports what resulted. A session that is over no file is over this input and output. Where
/// another service has the journal that is to be served, nothing is begun: no file of a session is opened.
pub fn serve<R, I, O>(rt: &R, words: &Words, input: I, output: O) -> Result<Came, NoMemory>
where
    R: Threads + Wait + Sync + Send + Clock + Files<File = File> + AllocGlobal + Clone + Drop,
    I: Read + Drop + Send,
    O: Write + Drop + Send,
    ensures usage { IfOk result (λ came. (came.status ≡ 1) ↔ ((came.status ≢ 9) × (IsAsking words.now → ⊥))) }
    ensures judged { OnErr result ((asked : Asked) × Asks words.now asked) }
{
    words_ask_one_thing();
    match read_words(rt.alloc(), words) {
        Ok(asked) => serve_claimed(rt, words, &asked, input, output),
        Err(Usage::Refused) => Ok(not_run(1)),
        Err(Usage::NoMemory) => Ok(not_run(9)),
    }
}

/// A run that was not begun, with this status.
pub fn not_run(status: u8) -> Came
    ensures { result.status ≡ status }
{
    Came {
        status,
        why: StartWhy0::None,
        in_use: false,
    }
}
