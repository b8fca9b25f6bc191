//! The statements of a configuration in a row, each with how many stand at it and below it.

ghost use Rattle.std.specs.Prelude.{◌≡◌, ◌<◌, ◌≤◌, ◌+◌, nat_lt, length, filter, drop, IfOk};
ghost use Rattle.std.specs.FinMap as map;
ghost use Rattle.cfg_tree.specs.Tree.{IsTree};
ghost use Rattle.group_expand.specs.Placed.{map_of, IsRow};
ghost use Rattle.group_expand.specs.Row.{Counted, Ordered, AreBehind, IsToldByDepth, AreToldByDepth};
ghost use Rattle.group_expand.specs.Row.{below_of, beside_of, is_under, size_in, path_in, pairs_of};

use cfg_base::{NoMemory, Path, Value};
use cfg_tree::Tree;
use std::alloc::Global;
use std::marker::Model;

/// A statement, how many steps its path has, and how many stand at it and below it.
#[derive(Debug, Drop)]
pub struct Statement<'a> {
    path: &'a Path,
    value: &'a Value,
    depth: usize,
    size: usize,
}

impl<'a> Model for Statement<'a> {
    ghost use Rattle.std.specs.Prelude.{◌≡◌, length};
    ghost use Rattle.group_expand.specs.Row as row;

    ghost Value = { row.StatementView };

    ghost view = { λ s. record { path = s.path.now; value = s.value.now; size = s.size } };

    ghost invariant = { λ s. s.depth ≡ length s.path.now };
}

impl<'a> Statement<'a> {
    pub fn path(&self) -> &'a Path
        ensures { result.now ≡ self.now.path }
    {
        self.path
    }

    pub fn value(&self) -> &'a Value
        ensures { result.now ≡ self.now.value }
    {
        self.value
    }

    /// How many steps its path has.
    pub fn depth(&self) -> usize
        ensures { result ≡ length self.now.path }
    {
        self.depth
    }

    fn size(&self) -> usize
        ensures { result ≡ self.now.size }
    {
        self.size
    }

    /// The same statement with another size.
    fn sized(&self, size: usize) -> Statement<'a>
        ensures path { result.path ≡ self.now.path }
        ensures value { result.value ≡ self.now.value }
        ensures size { result.size ≡ size }
    {
        Statement {
            path: self.path,
            value: self.value,
            depth: self.depth,
            size,
        }
    }
}

fn size(part: &[Statement<'_>]) -> usize
    requires { 0 < length part.now }
    ensures { result ≡ size_in part.now }
{
    part[0].size()
}

/// The path of the first statement.
pub fn path_of<'a>(part: &[Statement<'a>]) -> &'a Path
    requires { 0 < length part.now }
    ensures { result.now ≡ path_in part.now }
{
    part[0].path()
}

/// What stands after a statement and all below it.
pub fn beside<'s, 'a>(part: &'s [Statement<'a>]) -> &'s [Statement<'a>]
    requires some { 0 < length part.now }
    requires counted { Counted part.now }
    requires ordered { Ordered part.now }
    ensures { result.now ≡ beside_of part.now }
{
    part.split_at(size(part)).1
}

/// What stands below a statement.
pub fn inside<'s, 'a>(part: &'s [Statement<'a>]) -> &'s [Statement<'a>]
    requires some { 0 < length part.now }
    requires counted { Counted part.now }
    requires ordered { Ordered part.now }
    ensures { result.now ≡ below_of part.now }
{
    part.split_at(size(part)).0.split_at(1).1
}

/// Whether the path of the first statement has more steps than that of another one.
fn begins_deeper(above: &Statement<'_>, part: &[Statement<'_>]) -> bool
    requires { 0 < length part.now }
    ensures { result ≡ nat_lt (length above.now.path) (length (path_in part.now)) }
{
    above.depth() < part[0].depth()
}

/// How many statements of a row stand below one that is before them.
fn count_below(above: &Statement<'_>, rest: &[Statement<'_>]) -> usize
    requires counted { Counted rest.now }
    requires ordered { Ordered rest.now }
    requires behind { AreBehind above.now.path rest.now }
    requires told { IsToldByDepth above.now.path rest.now }
    ensures count { result ≡ length (filter (is_under above.now.path) rest.now) }
    ensures within { result ≤ length rest.now }
{
    let all = rest.len();
    let mut left = rest;
    while !left.is_empty() {
        if !begins_deeper(above, left) {
            return all - left.len();
        }
        left = beside(left);
    }
    all
}

/// Gives a statement its size, where those after it have theirs.
fn size_at(row: &mut Vec<Statement<'_>>, at: usize)
    requires within { at < length row.old.items }
    requires ordered { Ordered row.old.items }
    requires told { AreToldByDepth row.old.items }
    requires counted { Counted (drop (at + 1) row.old.items) }
    ensures counted { Counted (drop at row.new.items) }
    ensures same { pairs_of row.new.items ≡ pairs_of row.old.items }
{
    let rest = row.split_at(at + 1).1;
    let size = count_below(&row[at], rest) + 1;
    let sized = row[at].sized(size);
    row[at] = sized;
}

/// Gives each statement its size.
fn size_all(row: &mut Vec<Statement<'_>>)
    requires ordered { Ordered row.old.items }
    requires told { AreToldByDepth row.old.items }
    ensures counted { Counted row.new.items }
    ensures same { pairs_of row.new.items ≡ pairs_of row.old.items }
{
    let mut at = row.len();
    while at > 0 {
        at -= 1;
        size_at(row, at);
    }
}

/// The statements, none with its size yet.
fn gathered<'a>(alloc: Global, tree: &'a Tree) -> Result<Vec<Statement<'a>>, NoMemory>
    ensures same { IfOk result (λ row. pairs_of row.items ≡ map.entries tree.now) }
    ensures tree { IsTree tree.now }
{
    let mut row = Vec::with_capacity(alloc, tree.count() as usize)?;
    let mut walk = tree.walk();
    while let Some((path, value)) = walk.next() {
        row.push(Statement {
            path,
            value,
            depth: path.steps().len(),
            size: 1,
        })?;
    }
    Ok(row)
}

/// The statements of a configuration.
pub fn row_of<'a>(alloc: Global, tree: &'a Tree) -> Result<Vec<Statement<'a>>, NoMemory>
    ensures map { IfOk result (λ row. map_of row.items ≡ tree.now) }
    ensures row { IfOk result (λ row. IsRow row.items) }
{
    let mut row = gathered(alloc, tree)?;
    size_all(&mut row);
    Ok(row)
}
