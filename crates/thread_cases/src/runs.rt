//! Runs of the service over the ends and the ticker of a case, and over disks in memory.

ghost use Rattle.std.specs.Prelude.{◌≡◌, IfOk};
ghost use Rattle.session_threads.specs.Results.{users_of_ends};
ghost use Rattle.service.specs.Run.{AreEnds};

use crate::edges::{Counting, Still};
use cfg_base::{Moment, UserName, Words};
use command_line::{Usage, read_words, words_ask_one_thing};
use disk_model::{Disk, MemDisk};
use io_edge::{Beat, ListBeat, ListSource, Source};
use script_lines::{Fault, args_of, words_of};
use service::{Closed, Ticker, run_keeping};
use session_shell::End;
use std::alloc::Global;
use std::sync::atomic::AtomicU64;
use std::sync::{Arc, Wait};
use std::thread::Threads;
use std::vec::IntoIter;

/// What sessions read and write.
pub(crate) type Part<S> = (S, Counting);

/// What resulted from a run.
pub(crate) type Ran<S, B, D> = Closed<S, Counting, Still, B, D>;

/// The moment that the clock of each session answers.
const SESSIONS: u64 = 1000;

/// How many bytes a disk has, and how many calls it takes.
const ROOM: u64 = 1 << 16;

const CALLS: u32 = 1_000;

/// An end for each user, in order.
fn ends_of<S: Drop>(
    alloc: Global,
    users: &[UserName],
    parts: &mut IntoIter<Part<S>>,
) -> Result<Vec<End<S, Counting, Still>>, Fault>
    ensures { IfOk result (λ ends. users_of_ends ends.items ≡ users.now) }
{
    let mut ends = Vec::new(alloc);
    for user in users {
        let Some((source, sink)) = parts.next() else {
            return Err(Fault::Script("an end for each user"));
        };
        ends.push(End {
            user: user.clone()?,
            source,
            sink,
            clock: Still {
                moment: Moment::of(SESSIONS),
            },
        })?;
    }
    Ok(ends)
}

/// The ends that the words ask for. Words that are refused ask for none.
fn asked_ends<S: Drop>(
    alloc: Global,
    words: &Words,
    parts: Vec<Part<S>>,
) -> Result<Vec<End<S, Counting, Still>>, Fault>
    ensures { IfOk result (λ ends. AreEnds words.now ends.items) }
{
    words_ask_one_thing();
    let mut parts = parts.into_iter();
    match read_words(alloc, words) {
        Ok(asked) => ends_of(alloc, asked.users.as_slice(), &mut parts),
        Err(Usage::Refused) => Ok(Vec::new(alloc)),
        Err(Usage::NoMemory) => Err(Fault::NoMemory),
    }
}

/// What the words ask, over these parts.
pub(crate) fn ran<R, S, B, D>(
    rt: &R,
    alloc: Global,
    text: &str,
    parts: Vec<Part<S>>,
    ticker: Ticker<B, Still>,
    disks: (D, D),
) -> Result<Ran<S, B, D>, Fault>
where
    R: Threads + Wait + Sync,
    S: Source + Drop + Send,
    B: Beat + Drop + Send,
    D: Disk + Drop + Send,
{
    let words = words_of(alloc, &args_of(alloc, text)?)?;
    let ends = asked_ends(alloc, &words, parts)?;
    let (a, b) = disks;
    Ok(run_keeping(rt, alloc, &words, ends, ticker, a, b, true))
}

fn empty_disk(alloc: Global) -> Result<MemDisk, Fault> {
    Ok(MemDisk::new(alloc, ROOM, CALLS, Vec::new(alloc), Vec::new(alloc))?)
}

/// Two disks with a list of commits, which a run in mode init made.
pub(crate) fn made_disks<R: Threads + Wait + Sync>(
    rt: &R,
    alloc: Global,
) -> Result<(MemDisk, MemDisk), Fault> {
    let mut parts = Vec::new(alloc);
    parts.push((
        ListSource::new(Vec::new(alloc), Vec::new(alloc)),
        Counting::new(alloc, Arc::new(alloc, AtomicU64::new(0))?),
    ))?;
    let ticker = Ticker {
        beat: ListBeat::new(Vec::new(alloc)),
        clock: Still {
            moment: Moment::of(SESSIONS),
        },
        waker: None,
    };
    let disks = (empty_disk(alloc)?, empty_disk(alloc)?);
    let Closed { disk_a, disk_b, .. } = ran(rt, alloc, "init d", parts, ticker, disks)?;
    Ok((disk_a, disk_b))
}
