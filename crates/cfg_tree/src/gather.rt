//! Statements in the order in which they are met, made into a map at once.

ghost use Rattle.std.specs.Prelude.{◌≡◌, ◌∷◌, [], ◌++◌, IfOk};
ghost use Rattle.std.specs.FinMap as map;
ghost use Rattle.cfg_base.specs.Order.{path_cmp};
ghost use Rattle.cfg_tree.specs.Gather.{with_one, grown, gathered_from_none, AreUpTo, Climbs};
ghost use Rattle.cfg_tree.specs.Shown.{shown};
ghost use Rattle.cfg_tree.specs.declared.gather.GatherFault.TheVariants.{NoMemory};

use crate::pending::Pending;
use crate::store::Entries;
use cfg_base::{NoMemory, Path, Value};
use cfg_entries::Maker;
use std::alloc::{AllocError, AllocFailed, Global};
use std::marker::Model;
use thiserror::Error;

/// Why statements make no tree.
#[derive(Debug, Drop, PartialEq, Eq, Error)]
pub enum GatherFault {
    #[error("the statement at this place is one more than 16384")]
    TooMany(usize),
    #[error("out of memory")]
    NoMemory,
}

impl From<NoMemory> for GatherFault {
    ghost from_gives = { λ _ fault. fault ≡ NoMemory };

    fn from(_: NoMemory) -> GatherFault {
        GatherFault::NoMemory
    }
}

impl From<AllocError> for GatherFault {
    ghost from_gives = { λ _ fault. fault ≡ NoMemory };

    fn from(_: AllocError) -> GatherFault {
        GatherFault::NoMemory
    }
}

impl<T: Drop> From<AllocFailed<T>> for GatherFault {
    ghost from_gives = { λ _ fault. fault ≡ NoMemory };

    fn from(_: AllocFailed<T>) -> GatherFault {
        GatherFault::NoMemory
    }
}

/// Statements whose paths don't fall, those of one path joined.
#[derive(Debug, Drop)]
struct Gatherer<'a> {
    alloc: Global,
    maker: Maker<'a, Value>,
    last: Option<Pending>,
}

impl<'a> Model for Gatherer<'a> {
    ghost use Rattle.std.specs.Prelude.{List, ◌++◌};
    ghost use Rattle.std.specs.Option.{option_to_list};
    ghost use Rattle.cfg_base.specs.declared.value.Value as value;
    ghost use Rattle.cfg_entries.specs.EntryMap.{Pair};
    ghost use Rattle.cfg_tree.specs.Gather.{IsGathered};

    ghost Value = { List (Pair value.Value) };

    ghost view = { λ g. g.maker ++ option_to_list g.last };

    ghost invariant = { λ g. IsGathered g.maker g.last };
}

/// What was met, with one statement more after it.
fn pushed<'a>(
    maker: Maker<'a, Value>,
    last: Pending,
    alloc: Global,
) -> Result<Maker<'a, Value>, NoMemory>
    ensures { IfOk result (λ made. made ≡ maker.entry ++ last ∷ []) }
{
    let (path, value) = last.entry(alloc)?;
    maker.push(path, value)
}

impl<'a> Gatherer<'a> {
    /// No statements, beside an older map.
    fn beside(alloc: Global, older: &'a Entries) -> Gatherer<'a>
        ensures { result ≡ [] }
    {
        Gatherer {
            alloc,
            maker: Maker::beside(alloc, older),
            last: None,
        }
    }

    /// One more statement, joined to the last one where that has its path.
    fn push(self, path: Path, value: Value) -> Result<Gatherer<'a>, NoMemory>
        requires { AreUpTo path self }
        ensures { IfOk result (λ gatherer. gatherer ≡ with_one (path, value) self.entry) }
    {
        let Gatherer { alloc, maker, last } = self;
        match last {
            None => Ok(Gatherer {
                alloc,
                maker,
                last: Some(Pending::of(alloc, path, value)),
            }),
            Some(before) => {
                if *before.path() == path {
                    let both = before.met(&value)?;
                    return Ok(Gatherer {
                        alloc,
                        maker,
                        last: Some(both),
                    });
                }
                let maker = pushed(maker, before, alloc)?;
                Ok(Gatherer {
                    alloc,
                    maker,
                    last: Some(Pending::of(alloc, path, value)),
                })
            }
        }
    }

    /// The map of these statements.
    fn finish(self) -> Result<Entries, NoMemory>
        ensures { IfOk result (λ made. made.entries ≡ self.entry) }
    {
        let Gatherer { alloc, maker, last } = self;
        match last {
            None => maker.finish(),
            Some(before) => pushed(maker, before, alloc)?.finish(),
        }
    }
}

/// The map of statements whose paths don't fall, beside an older map.
fn of_sorted(alloc: Global, older: &Entries, items: Vec<(Path, Value)>) -> Result<Entries, NoMemory>
    requires { Climbs items.items }
    ensures { IfOk result (λ made. made.entries ≡ grown [] items.items) }
{
    let mut gatherer = Gatherer::beside(alloc, older);
    for (path, value) in items {
        gatherer = gatherer.push(path, value)?;
    }
    gatherer.finish()
}

/// The map of statements put in turn, those of one path joined. What an older map has too is shared with it.
pub fn gathered_in(
    alloc: Global,
    older: &Entries,
    items: Vec<(Path, Value)>,
) -> Result<Entries, NoMemory>
    ensures { IfOk result (λ made. shown made ≡ gathered_from_none items.items) }
{
    let mut sorted = items;
    sorted.sort_by(|one, other| one.0.cmp(&other.0))?;
    of_sorted(alloc, older, sorted)
}
