//! What is left of the statements that are there once tagged paths are gone.

ghost use Rattle.std.specs.Prelude.{◌≡◌, ◌+◌, ◌≤◌, ◌∷◌, [], ◌++◌, length, filter, not, cond, Some, None, IfOk};
ghost use Rattle.std.specs.Option.{option_copied};
ghost use Rattle.std.specs.FinMap as map;
ghost use Rattle.cfg_base.specs.declared.path.TheConstants.{MAX_STEPS};
ghost use Rattle.cfg_schema.specs.Place.{place_of};
ghost use Rattle.cfg_tree.specs.Tree.{IsTree, ordered_head, step_of};
ghost use Rattle.load_ops.specs.Left.{is_tagged, names_left, value_left, IsLeft};
ghost use Rattle.load_ops.specs.Parts.{is_covered, entries_left};

use crate::tags::Tags;
use cfg_base::{NoMemory, Path, PathFault, Step, Value, Word, WordList};
use cfg_schema::{Place, head};
use cfg_tree::{GatherFault, Tree, walks_gather_their_tree};
use std::alloc::Global;

/// The head of the row below a path whose names keep the user's order, where there is such a row.
fn ordered_head(path: &Path) -> Option<&'static [u8]>
    ensures { option_copied result ≡ ordered_head (place_of path.now) }
{
    let place = Place::of(path.steps())?;
    let row = place.ordered_row()?;
    Some(head(row))
}

/// The word of a head.
fn word_of(alloc: Global, head: &[u8]) -> Result<Word, NoMemory>
    ensures { IfOk result (λ word. word ≡ head.now) }
{
    match Word::of(alloc, head) {
        Ok(word) => Ok(word),
        Err(_) => Err(NoMemory),
    }
}

fn child_of(path: &Path, head: &Word, name: &Word) -> Result<Path, NoMemory>
    requires { length path.now + 1 ≤ MAX_STEPS }
    ensures { IfOk result (λ child. child ≡ path.now ++ step_of head.now name.now ∷ []) }
{
    let step = Step {
        head: head.clone()?,
        name: name.clone()?,
    };
    match path.push(step) {
        Ok(child) => Ok(child),
        Err(PathFault::TooDeep) => unreachable!(),
        Err(PathFault::NoMemory) => Err(NoMemory),
    }
}

/// The names of the children with this head that aren't tagged.
fn untagged(
    alloc: Global,
    tags: &Tags<'_>,
    path: &Path,
    head: &Word,
    names: &WordList,
) -> Result<WordList, NoMemory>
    requires { length path.now + 1 ≤ MAX_STEPS }
    ensures { IfOk result (λ order. order ≡ filter (λ name. not (is_tagged tags.now (path.now ++ step_of head.now name ∷ []))) names.now) }
{
    let mut order = WordList::new(alloc);
    let mut left = names.iter();
    while let Some(name) = left.next() {
        if !tags.has(&child_of(path, head, name)?) {
            order.push(name.clone()?)?;
        }
    }
    Ok(order)
}

/// An order without the names of tagged children.
fn names_left(
    alloc: Global,
    tags: &Tags<'_>,
    path: &Path,
    names: &WordList,
) -> Result<WordList, NoMemory>
    ensures { IfOk result (λ order. order ≡ names_left tags.now path.now (ordered_head (place_of path.now)) names.now) }
{
    match ordered_head(path) {
        None => Ok(names.clone()?),
        Some(head) => untagged(alloc, tags, path, &word_of(alloc, head)?, names),
    }
}

/// A value as it was, with its order without the names of tagged children.
fn value_left(alloc: Global, tags: &Tags<'_>, path: &Path, value: &Value) -> Result<Value, NoMemory>
    ensures { IfOk result (λ left. left ≡ value_left tags.now path.now value.now) }
{
    // Few statements have an order, and only there a row is looked for.
    if value.order.is_empty() {
        return Ok(value.clone()?);
    }
    Ok(Value {
        inactive: value.inactive,
        protected: value.protected,
        order: names_left(alloc, tags, path, &value.order)?,
        words: value.words.clone()?,
    })
}

fn is_covered(above: Option<&Path>, path: &Path) -> bool
    ensures { result ≡ is_covered (option_copied above.entry) path.now }
{
    match above {
        None => false,
        Some(above) => path.is_below(above),
    }
}

fn top_if_tagged<'a>(tags: &Tags<'_>, top: &'a Path) -> Option<&'a Path>
    ensures { option_copied result ≡ cond (is_tagged tags.now top.now) (Some top.now) None }
{
    if tags.has(top) { Some(top) } else { None }
}

/// The statements that are left, in the order of paths.
fn statements_left(
    alloc: Global,
    tree: &Tree,
    tags: &Tags<'_>,
) -> Result<Vec<(Path, Value)>, NoMemory>
    ensures left { IfOk result (λ items. items.items ≡ entries_left tags.now (map.entries tree.now)) }
    ensures tree { IsTree tree.now }
{
    let mut items = Vec::with_capacity(alloc, tree.count() as usize)?;
    let top = Path::top(alloc);
    // What stands below a tagged path stands right after it.
    let mut gone = top_if_tagged(tags, &top);
    let mut left = tree.walk();
    while let Some((path, value)) = left.next() {
        if !is_covered(gone, path) {
            if tags.has(path) {
                gone = Some(path);
            } else {
                items.push((path.clone()?, value_left(alloc, tags, path, value)?))?;
            }
        }
    }
    Ok(items)
}

/// What is left of the statements that are there once these paths are gone with all below them.
pub fn left_of(alloc: Global, tree: &Tree, paths: &[Path]) -> Result<Tree, NoMemory>
    ensures { IfOk result (IsLeft tree.now paths.now) }
{
    if paths.is_empty() {
        return tree.copy();
    }
    let tags = Tags::of(alloc, paths)?;
    let items = statements_left(alloc, tree, &tags)?;
    walks_gather_their_tree();
    match Tree::gathered(alloc, tree, items) {
        Ok(left) => Ok(left),
        Err(GatherFault::TooMany(_)) => unreachable!(),
        Err(GatherFault::NoMemory) => Err(NoMemory),
    }
}
