//! Tagged paths, to be looked up.

ghost use Rattle.std.specs.Prelude.{◌≡◌, List, true, cond, OnOk, IfOk};
ghost use Rattle.std.specs.BTreeSet as set;
ghost use Rattle.std.specs.Ordering.{eq_by_cmp};
ghost use Rattle.cfg_base.specs.Order.{path_cmp};
ghost use Rattle.cfg_base.specs.declared.path.Step.{Step};
ghost use Rattle.load_ops.specs.Left.{is_tagged};
ghost use Rattle.load_ops.specs.Parts.{Knows};

use cfg_base::{NoMemory, Path};
use std::alloc::Global;
use std::collections::BTreeSet;
use std::marker::Model;

fn learn(known: &mut BTreeSet<Path>, path: &Path) -> Result<(), NoMemory>
    ensures { OnOk result ((other : List Step) → set.contains path_cmp known.new other ≡ cond (eq_by_cmp path_cmp path.now other) true (set.contains path_cmp known.old other)) }
{
    let _ = known.insert(path.clone()?)?;
    Ok(())
}

fn set_of(alloc: Global, paths: &[Path]) -> Result<BTreeSet<Path>, NoMemory>
    ensures { IfOk result (Knows paths.now) }
{
    let mut known = BTreeSet::new(alloc);
    for path in paths {
        learn(&mut known, path)?;
    }
    Ok(known)
}

/// So many paths are sooner compared one by one than looked up in a set.
const FEW: usize = 8;

fn is_among(paths: &[Path], path: &Path) -> bool
    ensures { result ≡ is_tagged paths.now path.now }
{
    paths.iter().any(|tag| path == tag)
}

/// The paths that a text tags.
#[derive(Debug, Drop)]
pub struct Tags<'a> {
    paths: &'a [Path],
    known: BTreeSet<Path>,
}

impl<'a> Model for Tags<'a> {
    ghost use Rattle.std.specs.Prelude.{List, ◌<◌, length};
    ghost use Rattle.cfg_base.specs.declared.path.Step.{Step};
    ghost use Rattle.load_ops.specs.Parts.{Knows};
    ghost use Rattle.load_ops.specs.declared.tags.TheConstants.{FEW};

    ghost Value = { List (List Step) };

    ghost view = { λ t. t.paths.now };

    ghost invariant = { λ t. FEW < length t.paths.now → Knows t.paths.now t.known };
}

impl<'a> Tags<'a> {
    /// These paths.
    pub fn of(alloc: Global, paths: &'a [Path]) -> Result<Tags<'a>, NoMemory>
        ensures { IfOk result (λ tags. tags ≡ paths.now) }
    {
        if paths.len() <= FEW {
            return Ok(Tags {
                paths,
                known: BTreeSet::new(alloc),
            });
        }
        let known = set_of(alloc, paths)?;
        Ok(Tags { paths, known })
    }

    /// Whether a path is one of them.
    pub fn has(&self, path: &Path) -> bool
        ensures { result ≡ is_tagged self.now path.now }
    {
        if self.paths.len() <= FEW {
            return is_among(self.paths, path);
        }
        self.known.contains(path)
    }
}
