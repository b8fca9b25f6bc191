//! The statements of a tree below a path, in the order of paths.

ghost use Rattle.std.specs.Prelude.{◌≡◌, ◌<◌, ◌≤◌, ◌==◌, ◌&&◌, nat_lt, [], ◌∷◌, ◌++◌, length, None, Some, MatchOption, if◌then◌else◌, IfOk, OnOk};
ghost use Rattle.std.specs.FinMap as finite;
ghost use Rattle.std.specs.List.{prefix_len};
ghost use Rattle.cfg_schema.specs.Profile.{is_step_of};
ghost use Rattle.cfg_tree.specs.Statements.{last_of};
ghost use Rattle.printing_order.specs.Inside.{front_inside, statements_inside};

use cfg_base::{NoMemory, Path, Step, Value};
use cfg_schema::RowWords;
use cfg_tree::Tree;
use std::alloc::Global;
use std::marker::Model;

/// A statement of a tree, and the steps of its path.
#[derive(Debug, Drop)]
pub struct Statement<'a> {
    path: &'a Path,
    steps: &'a [Step],
    value: &'a Value,
}

impl<'a> Model for Statement<'a> {
    ghost use Rattle.std.specs.Prelude.{◌≡◌, ◌<◌, length};
    ghost use Rattle.cfg_base.specs.declared.value.Value as stored;
    ghost use Rattle.cfg_entries.specs.EntryMap.{Pair};

    ghost Value = { Pair stored.Value };

    ghost view = { λ s. (s.path.now, s.value.now) };

    ghost invariant = { λ s. (s.steps.now ≡ s.path.now) × (0 < length s.path.now) };
}

impl<'a> Statement<'a> {
    /// The statement of a path and its value.
    pub fn of(path: &'a Path, value: &'a Value) -> Statement<'a>
        requires { 0 < length path.now }
        ensures { result ≡ (path.now, value.now) }
    {
        Statement {
            path,
            steps: path.steps(),
            value,
        }
    }

    /// The last step of its path.
    pub fn step(&self) -> &'a Step
        ensures { result.now ≡ last_of self.now.0 }
    {
        &self.steps[self.steps.len() - 1]
    }

    /// Its path.
    pub fn path(&self) -> &'a Path
        ensures { result.now ≡ self.now.0 }
    {
        self.path
    }

    /// Its value.
    pub fn value(&self) -> &'a Value
        ensures { result.now ≡ self.now.1 }
    {
        self.value
    }

    /// Whether its path has so many steps, and the last of them is one of a row.
    pub fn is_of_row(&self, count: usize, words: &RowWords) -> bool
        ensures { result ≡ ((length self.now.0 == count) && is_step_of words.now (last_of self.now.0)) }
    {
        self.steps.len() == count && words.tell(self.step())
    }

    /// Whether its path is longer than another one's.
    fn is_longer(&self, above: &Statement<'_>) -> bool
        ensures { result ≡ nat_lt (length above.now.0) (length self.now.0) }
    {
        above.steps.len() < self.steps.len()
    }
}

/// How many of the statements after one come before the first that isn't longer.
fn count_inside(above: &Statement<'_>, behind: &[Statement<'_>]) -> usize
    ensures count { result ≡ prefix_len (λ e. nat_lt (length above.now.0) (length e.0)) behind.now }
    ensures within { result ≤ length behind.now }
{
    behind
        .iter()
        .take_while(|statement| statement.is_longer(above))
        .count()
}

/// Of the statements after one those below it.
pub fn front_inside<'a, 'b>(
    above: &Statement<'_>,
    behind: &'b [Statement<'a>],
) -> &'b [Statement<'a>]
    ensures { result.now ≡ front_inside above.now.0 behind.now }
{
    let (front, _) = behind.split_at(count_inside(above, behind));
    front
}

fn push_if_long<'a>(
    statements: &mut Vec<Statement<'a>>,
    count: usize,
    path: &'a Path,
    value: &'a Value,
) -> Result<(), NoMemory>
    ensures { OnOk result (statements.new.items
        ≡ statements.old.items ++ (if nat_lt count (length path.now) then (path.now, value.now) ∷ [] else [])) }
{
    if count < path.steps().len() {
        statements.push(Statement::of(path, value))?;
    }
    Ok(())
}

/// The statements below a path, in their order.
pub fn statements_below<'a>(
    alloc: Global,
    tree: &'a Tree,
    path: &Path,
) -> Result<Vec<Statement<'a>>, NoMemory>
    ensures { IfOk result (λ statements. statements.items ≡ statements_inside tree.now path.now) }
{
    let count = path.steps().len();
    let mut statements = Vec::new(alloc);
    let mut walk = tree.walk_from(path);
    while let Some((at, value)) = walk.next() {
        if !at.is_below(path) {
            break;
        }
        push_if_long(&mut statements, count, at, value)?;
    }
    Ok(statements)
}

/// The statement at a path, where it is there.
pub(crate) fn statement_at<'a>(tree: &'a Tree, path: &Path) -> Option<Statement<'a>>
    requires { 0 < length path.now }
    ensures { MatchOption result (finite.get tree.now path.now ≡ None)
        (λ found. (found.0 ≡ path.now) × (finite.get tree.now path.now ≡ Some found.1)) }
{
    let mut walk = tree.walk_from(path);
    match walk.next() {
        None => None,
        Some((at, value)) => {
            if at == path {
                Some(Statement::of(at, value))
            } else {
                None
            }
        }
    }
}
