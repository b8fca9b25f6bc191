ghost use Rattle.std.specs.Prelude.{◌≡◌, ◌≤◌, ◌↔◌, [], ◌∷◌, ◌++◌, length, take, IfOk, IsErrOf};
ghost use Rattle.std.specs.Ordering.{as_partial_cmp, eq_by_cmp};
ghost use Rattle.std.specs.Cmp.Rules.{comparing};
ghost use Rattle.std.specs.Cmp.{partial_order_from_own_ties};
ghost use Rattle.std.proofs.Common.{rules};
ghost use Rattle.cfg_base.specs.declared.path.TheConstants.{MAX_STEPS};
ghost use Rattle.cfg_base.specs.declared.path.PathFault.TheVariants.{NoMemory};
ghost use Rattle.cfg_base.specs.Steps.{steps_of};
ghost use Rattle.cfg_base.specs.Order.{path_cmp, is_below, paths_total, paths_equal};

use crate::fault::NoMemory;
use crate::shared::Shared;
use crate::word::Word;
use std::alloc::{AllocError, AllocFailed, Global};
use std::cmp::Ordering;
use std::fmt;
use std::marker::Model;
use std::sync::Arc;
use thiserror::Error;

/// The most steps that a path has.
pub const MAX_STEPS: usize = 16;

/// One statement level: `system` has an empty name, `unit 0` has both, and `ge-0/0/0` under
/// `interfaces` has an empty head.
#[derive(Clone, Debug, Drop, PartialEq, Eq, PartialOrd, Ord)]
pub struct Step {
    pub head: Word,
    pub name: Word,
}

/// Why a path can't be made.
#[derive(Clone, Copy, Debug, PartialEq, Eq, Error)]
pub enum PathFault {
    #[error("a path has at most 16 steps")]
    TooDeep,
    #[error("out of memory")]
    NoMemory,
}

impl From<AllocError> for PathFault {
    ghost from_gives = { λ _ fault. fault ≡ NoMemory };

    fn from(_: AllocError) -> PathFault {
        PathFault::NoMemory
    }
}

impl<T: Drop> From<AllocFailed<T>> for PathFault {
    ghost from_gives = { λ _ fault. fault ≡ NoMemory };

    fn from(_: AllocFailed<T>) -> PathFault {
        PathFault::NoMemory
    }
}

impl From<NoMemory> for PathFault {
    ghost from_gives = { λ _ fault. fault ≡ NoMemory };

    fn from(_: NoMemory) -> PathFault {
        PathFault::NoMemory
    }
}

/// The steps of a path. Up to six stand in one block of memory with their count, more in one of
/// their own.
enum Steps {
    None,
    One(Arc<[Step; 1]>),
    Two(Arc<[Step; 2]>),
    Three(Arc<[Step; 3]>),
    Four(Arc<[Step; 4]>),
    Five(Arc<[Step; 5]>),
    Six(Arc<[Step; 6]>),
    More(Shared<Step>),
}

/// Steps with one more after them, in a row of their own.
fn row_with_last(alloc: Global, above: &[Step], last: Step) -> Result<Shared<Step>, NoMemory>
    ensures { IfOk result (λ steps. steps ≡ above.now ++ last ∷ []) }
{
    let mut steps = Vec::with_capacity(alloc, above.len().saturating_add(1))?;
    steps.extend_with_clones(above)?;
    steps.push(last)?;
    Shared::new(alloc, steps)
}

/// Three or more steps with one more after them.
fn many_with_last(alloc: Global, above: &[Step], last: Step) -> Result<Steps, NoMemory>
    ensures { IfOk result (λ steps. steps_of steps ≡ above.now ++ last ∷ []) }
{
    match above {
        [a, b, c] => {
            let steps = [a.clone()?, b.clone()?, c.clone()?, last];
            Ok(Steps::Four(Arc::new(alloc, steps)?))
        }
        [a, b, c, d] => {
            let steps = [a.clone()?, b.clone()?, c.clone()?, d.clone()?, last];
            Ok(Steps::Five(Arc::new(alloc, steps)?))
        }
        [a, b, c, d, e] => {
            let steps = [
                a.clone()?,
                b.clone()?,
                c.clone()?,
                d.clone()?,
                e.clone()?,
                last,
            ];
            Ok(Steps::Six(Arc::new(alloc, steps)?))
        }
        _ => Ok(Steps::More(row_with_last(alloc, above, last)?)),
    }
}

/// Steps with one more after them.
fn with_last(alloc: Global, above: &[Step], last: Step) -> Result<Steps, NoMemory>
    ensures { IfOk result (λ steps. steps_of steps ≡ above.now ++ last ∷ []) }
{
    // A function pays at its entry for the places of all its arms: most paths need those of three steps at most.
    match above {
        [] => Ok(Steps::One(Arc::new(alloc, [last])?)),
        [a] => Ok(Steps::Two(Arc::new(alloc, [a.clone()?, last])?)),
        [a, b] => Ok(Steps::Three(Arc::new(alloc, [a.clone()?, b.clone()?, last])?)),
        _ => many_with_last(alloc, above, last),
    }
}

/// The steps, in order.
fn steps_in(steps: &Steps) -> &[Step]
    ensures { result.now ≡ steps_of steps.now }
{
    match steps {
        Steps::None => &[],
        Steps::One(steps) => steps.as_slice(),
        Steps::Two(steps) => steps.as_slice(),
        Steps::Three(steps) => steps.as_slice(),
        Steps::Four(steps) => steps.as_slice(),
        Steps::Five(steps) => steps.as_slice(),
        Steps::Six(steps) => steps.as_slice(),
        Steps::More(steps) => steps.items(),
    }
}

/// The same steps once more.
fn copied(steps: &Steps) -> Result<Steps, AllocError>
    ensures { IfOk result (λ copy. steps_of copy ≡ steps_of steps.now) }
{
    match steps {
        Steps::None => Ok(Steps::None),
        Steps::One(steps) => Ok(Steps::One(steps.clone()?)),
        Steps::Two(steps) => Ok(Steps::Two(steps.clone()?)),
        Steps::Three(steps) => Ok(Steps::Three(steps.clone()?)),
        Steps::Four(steps) => Ok(Steps::Four(steps.clone()?)),
        Steps::Five(steps) => Ok(Steps::Five(steps.clone()?)),
        Steps::Six(steps) => Ok(Steps::Six(steps.clone()?)),
        Steps::More(steps) => Ok(Steps::More(steps.clone()?)),
    }
}

// Written out, so that a drop of what holds a path is a call.
impl Drop for Steps {
    fn drop(self) {
        match self {
            Steps::None => {}
            Steps::One(steps) => drop(steps),
            Steps::Two(steps) => drop(steps),
            Steps::Three(steps) => drop(steps),
            Steps::Four(steps) => drop(steps),
            Steps::Five(steps) => drop(steps),
            Steps::Six(steps) => drop(steps),
            Steps::More(steps) => drop(steps),
        }
    }
}

/// Where a statement stands: its steps from the top, which itself is the path without steps.
/// Copies share the steps, and the top has none to share.
pub struct Path {
    alloc: Global,
    steps: Steps,
}

// Written out, so that a drop of what holds a path is a call.
impl Drop for Path {
    fn drop(self) {
        let Path { alloc: _, steps } = self;
        drop(steps);
    }
}

impl Model for Path {
    ghost use Rattle.std.specs.Prelude.{List, length, ◌≤◌};
    ghost use Rattle.cfg_base.specs.declared.path.Step.{Step};
    ghost use Rattle.cfg_base.specs.declared.path.TheConstants.{MAX_STEPS};
    ghost use Rattle.cfg_base.specs.Steps.{steps_of};

    ghost Value = { List Step };

    ghost view = { λ p. steps_of p.steps };

    ghost invariant = { λ p. length (steps_of p.steps) ≤ MAX_STEPS };
}

impl Path {
    /// The path without steps.
    pub fn top(alloc: Global) -> Path
        ensures { result ≡ [] }
    {
        Path {
            alloc,
            steps: Steps::None,
        }
    }

    /// This path with one more step at its end.
    pub fn push(&self, step: Step) -> Result<Path, PathFault>
        ensures ok { IfOk result (λ path. path ≡ self.now ++ step ∷ []) }
        ensures deep { IsErrOf result PathFault.TooDeep ↔ (MAX_STEPS ≤ length self.now) }
    {
        let above = self.steps();
        if above.len() >= MAX_STEPS {
            return Err(PathFault::TooDeep);
        }
        Ok(Path {
            alloc: self.alloc,
            steps: with_last(self.alloc, above, step)?,
        })
    }

    /// The path of its first steps.
    pub fn prefix(&self, count: usize) -> Result<Path, NoMemory>
        requires { count ≤ length self.now }
        ensures { IfOk result (λ path. path ≡ take count self.now) }
    {
        match self.steps().split_at(count).0.split_last() {
            None => Ok(Path::top(self.alloc)),
            Some((last, above)) => Ok(Path {
                alloc: self.alloc,
                steps: with_last(self.alloc, above, last.clone()?)?,
            }),
        }
    }

    /// Whether this path is another one or below it.
    pub fn is_below(&self, above: &Path) -> bool
        ensures { result ≡ is_below above.now self.now }
    {
        self.steps().starts_with(above.steps())
    }

    /// The steps, from the top.
    pub fn steps(&self) -> &[Step]
        ensures steps { result.now ≡ self.now }
        ensures within { length self.now ≤ MAX_STEPS }
    {
        steps_in(&self.steps)
    }
}

impl fmt::Debug for Path {
    fn fmt<W: fmt::Write>(&self, f: &mut fmt::Formatter<W>) -> fmt::Result {
        f.debug_struct("Path")
            .field("steps", &self.steps())
            .finish()
    }
}

impl Clone for Path {
    ghost is_clone = { λ source copy. copy ≡ source };

    fn clone(&self) -> Result<Path, AllocError> {
        Ok(Path {
            alloc: self.alloc,
            steps: copied(&self.steps)?,
        })
    }
}

impl PartialEq for Path {
    ghost eq = { eq_by_cmp path_cmp };

    ghost laws = { Prim.search (comparing, rules) };

    fn eq(&self, other: &Path) -> bool {
        self.steps() == other.steps()
    }
}

impl Eq for Path {
    ghost laws = { paths_equal };
}

impl PartialOrd for Path {
    ghost partial_cmp = { as_partial_cmp path_cmp };

    ghost laws = { partial_order_from_own_ties (Prim.search (comparing, rules)) (Prim.search (comparing, rules)) };

    fn partial_cmp(&self, other: &Path) -> Option<Ordering> {
        Some(self.cmp(other))
    }
}

impl Ord for Path {
    ghost cmp = { path_cmp };

    ghost total = { paths_total };

    ghost matches_partial_cmp = { Prim.search (comparing, rules) };

    ghost matches_eq = { Prim.search (comparing, rules) };

    fn cmp(&self, other: &Path) -> Ordering {
        self.steps().cmp(other.steps())
    }
}
