//! The paths of classes and users.

ghost use Rattle.std.specs.Prelude.{◌≡◌, ◌<◌, ◌∷◌, [], ◌++◌, length, IfOk};
ghost use Rattle.cfg_base.specs.declared.path.TheConstants.{MAX_STEPS};
ghost use Rattle.cfg_tree.specs.Tree.{step_of};
ghost use Rattle.access_rules.specs.Rights.{login_path};

use cfg_base::{NoMemory, Path, PathFault, Step, Word};
use std::alloc::Global;

/// A path with one more step.
fn below(alloc: Global, path: &Path, head: &'static [u8], name: Word) -> Result<Path, NoMemory>
    requires room { length path.now < MAX_STEPS }
    requires head { length head.now < 256 }
    ensures { IfOk result (λ made. made ≡ path.now ++ step_of head.now name ∷ []) }
{
    let step = Step {
        head: Word::short(alloc, head)?,
        name,
    };
    match path.push(step) {
        Ok(made) => Ok(made),
        Err(PathFault::TooDeep) => unreachable!(),
        Err(PathFault::NoMemory) => Err(NoMemory),
    }
}

/// The path of a statement below the class or the user of a name.
pub fn login_path(
    alloc: Global,
    head: &'static [u8],
    name: &Word,
    last: &'static [u8],
) -> Result<Path, NoMemory>
    requires head { length head.now < 256 }
    requires last { length last.now < 256 }
    ensures { IfOk result (λ made. made ≡ login_path head.now name.now last.now) }
{
    let top = Path::top(alloc);
    let system = below(alloc, &top, b"system", Word::short(alloc, b"")?)?;
    let login = below(alloc, &system, b"login", Word::short(alloc, b"")?)?;
    let named = below(alloc, &login, head, name.clone()?)?;
    below(alloc, &named, last, Word::short(alloc, b"")?)
}
