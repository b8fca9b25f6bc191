//! Statements that are looked up in an expansion.

ghost use Rattle.std.specs.Prelude.{◌≡◌, ◌<◌, ◌≤◌, ◌∷◌, [], ◌++◌, length, take, IfOk};
ghost use Rattle.cfg_base.specs.declared.path.TheConstants.{MAX_STEPS};
ghost use Rattle.cfg_schema.specs.Profile.{head_of, name_of};
ghost use Rattle.cfg_schema.specs.declared.rows.TheConstants.{ROWS};
ghost use Rattle.commit_check.specs.Kinds.{named, plain, class_of, policy_of, prefix_list_of, filter_of, is_in, has_child};

use cfg_base::{NoMemory, Path, PathFault, Step, Word};
use cfg_schema::{RowId, fixed_name, head};
use cfg_tree::Full;
use std::alloc::Global;

/// The word with which a row begins.
fn head_word(alloc: Global, row: u8) -> Result<Word, NoMemory>
    requires { row < ROWS }
    ensures { IfOk result (λ word. word ≡ head_of row) }
{
    Word::short(alloc, head(RowId::at(usize::from(row))))
}

/// A step of a row without a name.
pub fn plain(alloc: Global, row: u8) -> Result<Step, NoMemory>
    requires { row < ROWS }
    ensures { IfOk result (λ step. step ≡ plain row) }
{
    Ok(Step {
        head: head_word(alloc, row)?,
        name: Word::empty(alloc),
    })
}

/// A step of a row with a name.
pub fn named(alloc: Global, row: u8, name: &[u8]) -> Result<Step, NoMemory>
    requires row { row < ROWS }
    requires short { length name.now < 256 }
    ensures { IfOk result (λ step. step ≡ named row name.now) }
{
    Ok(Step {
        head: head_word(alloc, row)?,
        name: Word::short(alloc, name)?,
    })
}

/// A path with one more step.
pub fn below(path: &Path, step: Step) -> Result<Path, NoMemory>
    requires { length path.now < MAX_STEPS }
    ensures { IfOk result (λ made. made ≡ path.now ++ step ∷ []) }
{
    match path.push(step) {
        Ok(made) => Ok(made),
        Err(PathFault::TooDeep) => unreachable!(),
        Err(PathFault::NoMemory) => Err(NoMemory),
    }
}

/// The child of a path by the row of a statement without a name.
pub fn child(alloc: Global, path: &Path, row: u8) -> Result<Path, NoMemory>
    requires deep { length path.now < MAX_STEPS }
    requires row { row < ROWS }
    ensures { IfOk result (λ made. made ≡ path.now ++ plain row ∷ []) }
{
    below(path, plain(alloc, row)?)
}

/// Whether a path stands in the expansion.
pub fn is_in(full: &Full, path: &Path) -> bool
    ensures { result ≡ is_in full.now path.now }
{
    full.at(path).is_some()
}

/// Whether the child of a path by this row stands in the expansion.
pub fn has_child(alloc: Global, full: &Full, path: &Path, row: u8) -> Result<bool, NoMemory>
    requires deep { length path.now < MAX_STEPS }
    requires row { row < ROWS }
    ensures { IfOk result (λ there. there ≡ has_child full.now path.now row) }
{
    Ok(is_in(full, &child(alloc, path, row)?))
}

/// Whether the expansion has a login class of this name.
pub fn has_class(alloc: Global, full: &Full, name: &Word) -> Result<bool, NoMemory>
    ensures { IfOk result (λ there. there ≡ is_in full.now (class_of name.now)) }
{
    let top = Path::top(alloc);
    let system = below(&top, plain(alloc, 6)?)?;
    let login = below(&system, plain(alloc, 11)?)?;
    let class = below(&login, named(alloc, 12, name.as_bytes())?)?;
    Ok(is_in(full, &class))
}

/// Whether the expansion has a policy statement of this name.
pub fn has_policy(alloc: Global, full: &Full, name: &Word) -> Result<bool, NoMemory>
    ensures { IfOk result (λ there. there ≡ is_in full.now (policy_of name.now)) }
{
    let top = Path::top(alloc);
    let options = below(&top, plain(alloc, 73)?)?;
    let policy = below(&options, named(alloc, 76, name.as_bytes())?)?;
    Ok(is_in(full, &policy))
}

/// Whether the expansion has a prefix list of this name.
pub fn has_prefix_list(alloc: Global, full: &Full, name: &Word) -> Result<bool, NoMemory>
    ensures { IfOk result (λ there. there ≡ is_in full.now (prefix_list_of name.now)) }
{
    let top = Path::top(alloc);
    let options = below(&top, plain(alloc, 73)?)?;
    let list = below(&options, named(alloc, 74, name.as_bytes())?)?;
    Ok(is_in(full, &list))
}

/// The step of a Fixed row.
fn fixed(alloc: Global, row: u8) -> Result<Step, NoMemory>
    requires { row < ROWS }
    ensures { IfOk result (λ step. step ≡ named row (name_of row)) }
{
    Ok(Step {
        head: head_word(alloc, row)?,
        name: Word::short(alloc, fixed_name(RowId::at(usize::from(row))))?,
    })
}

/// Whether the expansion has an IPv4 filter of this name.
pub fn has_filter(alloc: Global, full: &Full, name: &Word) -> Result<bool, NoMemory>
    ensures { IfOk result (λ there. there ≡ is_in full.now (filter_of name.now)) }
{
    let top = Path::top(alloc);
    let firewall = below(&top, plain(alloc, 99)?)?;
    let family = below(&firewall, fixed(alloc, 100)?)?;
    let filter = below(&family, named(alloc, 101, name.as_bytes())?)?;
    Ok(is_in(full, &filter))
}
