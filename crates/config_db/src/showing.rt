//! How the view after an entry is proposed, kept or withdrawn, and published.
//!
//! 1. The view after the entry is proposed before the entry is written. It takes all the memory that showing it needs.
//! 2. It is kept once the entry is known to be on the disks, and withdrawn once it is known not to be. While the entry is in flight
//!    it waits.
//! 3. What is kept is published. Where memory runs out for that the writer is late: the entry is answered all the same, and the
//!    next turn publishes first, or does nothing.

ghost use Rattle.std.specs.Prelude.{◌≡◌, true, IfOk, IfSome, OnOk, OnErr, None};
ghost use Rattle.cfg_tree.specs.Full.{IsWithin};
ghost use Rattle.group_expand.specs.Expansion.{IsExpansion};
ghost use Rattle.commit_check.specs.Accepts.{Accepts};
ghost use Rattle.commit_ledger.specs.Kept.{BringsMap, append_entry};
ghost use Rattle.commit_ledger.specs.Rules.{Follows};
ghost use Rattle.active_snapshot.specs.Expanded.{ComesWith};
ghost use Rattle.active_snapshot.specs.States.{all_published};
ghost use Rattle.config_core.specs.Plan.{Expands, ExpandsMade, made_in};
ghost use Rattle.stored_ledger.specs.Standing.{Stands};
ghost use Rattle.stored_ledger.specs.Writable.{IsWritable};
ghost use Rattle.config_db.specs.Writing.{IsWritten};
ghost use Rattle.config_db.specs.Shown.{CanFollow, CanFollowLast, IsShown, Keeps, Proposes, ProposesNext, Publishes, ShowsSettled};

use crate::writing::write;
use active_snapshot::{Naming, Shown, SnapWriter};
use cfg_base::NoMemory;
use cfg_tree::{Full, Tree};
use commit_check::accepted_configurations_fit;
use commit_journal::Journal;
use commit_ledger::{Entry, Ledger};
use config_core::{Outcome, Prepared};
use disk_model::Disk;
use group_expand::{ExpandFault, expand, expansion_is_one};
use std::alloc::Global;
use std::sync::Wait;

/// The expansion of a configuration that is accepted. It has no more paths than it may.
fn expanded(alloc: Global, tree: &Tree) -> Result<Full, NoMemory>
    requires { Accepts tree.now }
    ensures full { IfOk result (IsExpansion tree.now) }
    ensures within { IfOk result IsWithin }
{
    accepted_configurations_fit();
    expansion_is_one();
    match expand(alloc, tree) {
        Ok(full) => Ok(full),
        Err(ExpandFault::NoMemory) => Err(NoMemory),
        Err(ExpandFault::TooWide) => unreachable!(),
    }
}

/// The first view, of a list whose active configuration is accepted.
pub(crate) fn first_view(alloc: Global, ledger: &Ledger) -> Result<Shown, NoMemory>
    requires { Accepts ledger.now.last.tree }
    ensures { IfOk result (λ view. view ≡ ledger.now) }
{
    let full = expanded(alloc, ledger.active())?;
    Shown::first(alloc, ledger, full)
}

/// The expansion of a commit's configuration: the one that is given, where there is one.
fn given_or_expanded(alloc: Global, tree: &Tree, given: Option<Full>) -> Result<Full, NoMemory>
    requires accepted { Accepts tree.now }
    requires given { IfSome given (λ full. IsExpansion tree.now full × IsWithin full) }
    ensures full { IfOk result (IsExpansion tree.now) }
    ensures within { IfOk result IsWithin }
{
    match given {
        Some(full) => Ok(full),
        None => expanded(alloc, tree),
    }
}

/// The expansion that an entry brings: of a commit's configuration.
fn expansion_of(alloc: Global, entry: &Entry, given: Option<Full>) -> Result<Option<Full>, NoMemory>
    requires accepted { BringsMap Accepts entry.now }
    requires given { IfSome given (λ full. Expands full entry.now) }
    ensures full { IfOk result (ComesWith entry.now) }
    ensures within { IfOk result (λ full. IfSome full IsWithin) }
{
    match entry {
        Entry::Commit(commit) => Ok(Some(given_or_expanded(alloc, &commit.tree, given)?)),
        Entry::Confirm(_) | Entry::Scheduled(_) | Entry::Cleared(_) => Ok(None),
    }
}

/// The view after an entry.
fn view_after(
    alloc: Global,
    view: &Shown,
    entry: &Entry,
    given: Option<Full>,
) -> Result<Shown, NoMemory>
    requires follows { CanFollow view.now entry.now }
    requires given { IfSome given (λ full. Expands full entry.now) }
    ensures { IfOk result (λ next. next ≡ append_entry view.now entry.now) }
{
    let full = expansion_of(alloc, entry, given)?;
    view.then(alloc, entry, full)
}

/// Proposes the view after an entry. A writer that is late proposes nothing, as if memory had run out.
fn propose<J: Naming>(
    alloc: Global,
    shown: &mut SnapWriter<J>,
    entry: &Entry,
    given: Option<Full>,
) -> Result<(), NoMemory>
    requires follows { CanFollowLast shown.old.list entry.now }
    requires given { IfSome given (λ full. Expands full entry.now) }
    ensures ok { OnOk result (ProposesNext entry.now shown.old shown.new) }
    ensures err { OnErr result (shown.new ≡ shown.old) }
{
    if shown.is_late() {
        return Err(NoMemory);
    }
    let next = view_after(alloc, shown.view(), entry, given)?;
    shown.propose(alloc, next)
}

/// Proposes the view after the entry that a step makes, if it makes one. The expansion that comes with the step is taken.
fn propose_entry<J: Naming>(
    alloc: Global,
    shown: &mut SnapWriter<J>,
    prepared: &Prepared,
    given: Option<Full>,
) -> Result<(), NoMemory>
    requires given { IfSome given (ExpandsMade prepared.now.effect) }
    requires follows { IfSome (made_in prepared.now.effect) (λ made. CanFollowLast shown.old.list made.entry) }
    ensures ok { OnOk result (Proposes (made_in prepared.now.effect) shown.old shown.new) }
    ensures err { OnErr result (shown.new ≡ shown.old) }
{
    match prepared.entry() {
        None => Ok(()),
        Some(entry) => propose(alloc, shown, entry, given),
    }
}

/// Keeps what waits, and publishes it, where there is memory.
fn keep<J: Naming, R: Wait>(rt: &R, shown: &mut SnapWriter<J>)
    ensures { Keeps shown.old shown.new }
{
    match shown.keep(rt) {
        Ok(()) | Err(NoMemory) => {}
    }
}

/// Keeps the view after the entry that a step made, where it was written.
fn publish<J: Naming, R: Wait>(
    rt: &R,
    shown: &mut SnapWriter<J>,
    prepared: &Prepared,
    outcome: Outcome,
)
    ensures { Publishes (made_in prepared.now.effect) outcome shown.old shown.new }
{
    match (prepared.entry(), outcome) {
        (Some(_), Outcome::Done) => keep(rt, shown),
        (Some(_), Outcome::Fault) | (None, _) => {}
    }
}

/// Writes the entry that a step makes, if it makes one, and shows the list with it once it is written.
pub(crate) fn write_shown<D: Disk, J: Naming, R: Wait>(
    rt: &R,
    alloc: Global,
    journal: &mut Journal<D>,
    ledger: &Ledger,
    shown: &mut SnapWriter<J>,
    prepared: &Prepared,
    given: Option<Full>,
) -> Result<Outcome, NoMemory>
    requires given { IfSome given (ExpandsMade prepared.now.effect) }
    requires stands { Stands journal.old ledger.now }
    requires writable { IfSome (made_in prepared.now.effect) (λ made. IsWritable made.entry) }
    requires next { IfSome (made_in prepared.now.effect) (λ made. Follows ledger.now made.entry) }
    requires follows { IfSome (made_in prepared.now.effect) (λ made. CanFollowLast shown.old.list made.entry) }
    requires nothing_waits { shown.old.proposal ≡ None }
    ensures written { IfOk result (λ outcome.
        IsWritten ledger.now (made_in prepared.now.effect) outcome journal.old journal.new) }
    ensures shown { IfOk result (λ outcome. IsShown (made_in prepared.now.effect) outcome shown.old shown.new) }
    ensures err { OnErr result (journal.new ≡ journal.old) }
    ensures withdrawn { OnErr result (shown.new ≡ shown.old) }
{
    let Ok(()) = propose_entry(alloc, shown, prepared, given) else {
        return Err(NoMemory);
    };
    match write(alloc, journal, ledger, prepared) {
        Err(NoMemory) => {
            shown.withdraw();
            Err(NoMemory)
        }
        Ok(outcome) => {
            publish(rt, shown, prepared, outcome);
            Ok(outcome)
        }
    }
}

/// Keeps or withdraws what waited for the entry that was in flight.
pub(crate) fn show_settled<J: Naming, R: Wait>(rt: &R, shown: &mut SnapWriter<J>, is_kept: bool)
    ensures { ShowsSettled is_kept shown.old shown.new }
{
    if is_kept {
        keep(rt, shown);
    } else {
        shown.withdraw();
    }
}

/// Publishes what was kept while there was no memory.
pub(crate) fn publish_late<J: Naming, R: Wait>(
    rt: &R,
    shown: &mut SnapWriter<J>,
) -> Result<(), NoMemory>
    requires { shown.old.late ≡ true → shown.old.proposal ≡ None }
    ensures ok { OnOk result (shown.new ≡ all_published shown.old) }
    ensures err { OnErr result (shown.new ≡ shown.old) }
{
    if shown.is_late() {
        shown.keep(rt)
    } else {
        Ok(())
    }
}
