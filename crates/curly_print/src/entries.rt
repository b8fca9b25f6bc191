//! What is given below a path of an expansion.

ghost use Rattle.std.specs.Prelude.{◌≡◌, ◌<◌, ◌≤◌, ◌++◌, ◌∷◌, [], ◌+◌, ◌&&◌, length, take, nat_lt, IfOk, OnOk, if◌then◌else◌};
ghost use Rattle.std.specs.List.{prefix_len};
ghost use Rattle.cfg_schema.specs.Profile.{is_step_of};
ghost use Rattle.cfg_tree.specs.Children.{is_child};
ghost use Rattle.cfg_tree.specs.Statements.{last_of};
ghost use Rattle.curly_print.specs.Inheriting.{front_longer, given_inside};

use cfg_base::{NoMemory, Path, Step};
use cfg_schema::RowWords;
use cfg_tree::{Full, Given};
use std::alloc::Global;
use std::marker::Model;

/// A path of an expansion, how many steps it has, and what is given there.
#[derive(Debug, Drop)]
pub(crate) struct Entry<'a> {
    path: &'a Path,
    given: &'a Given,
    depth: usize,
}

impl<'a> Model for Entry<'a> {
    ghost use Rattle.std.specs.Prelude.{◌≡◌, ◌<◌, length};
    ghost use Rattle.curly_print.specs.Inheriting.{FullEntry};

    ghost Value = { FullEntry };

    ghost view = { λ e. (e.path.now, e.given.now) };

    ghost invariant = { λ e. (0 < length e.path.now) × (e.depth ≡ length e.path.now) };
}

impl<'a> Entry<'a> {
    pub fn of(path: &'a Path, given: &'a Given) -> Entry<'a>
        requires { 0 < length path.now }
        ensures { result ≡ (path.now, given.now) }
    {
        Entry {
            path,
            given,
            depth: path.steps().len(),
        }
    }

    /// The last step of its path.
    pub fn step(&self) -> &'a Step
        ensures { result.now ≡ last_of self.now.0 }
    {
        let steps = self.path.steps();
        &steps[steps.len() - 1]
    }

    pub fn path(&self) -> &'a Path
        ensures { result.now ≡ self.now.0 }
    {
        self.path
    }

    pub fn given(&self) -> &'a Given
        ensures { result.now ≡ self.now.1 }
    {
        self.given
    }

    /// Whether its path is right below another one, of so many steps less one, and its last step is one of a row.
    pub fn is_of_row(&self, path: &Path, count: usize, words: &RowWords) -> bool
        requires { count ≡ length path.now + 1 }
        ensures { result ≡ (is_child path.now self.now.0 && is_step_of words.now (last_of self.now.0)) }
    {
        // Most are told apart by how many steps they have, and their paths aren't read.
        self.depth == count && words.tell(self.step()) && self.path.is_below(path)
    }

    /// Whether its path has more steps than that of another one.
    fn is_longer(&self, other: &Entry<'_>) -> bool
        ensures { result ≡ nat_lt (length other.now.0) (length self.now.0) }
    {
        other.depth < self.depth
    }
}

fn count_longer(above: &Entry<'_>, behind: &[Entry<'_>]) -> usize
    ensures count { result ≡ prefix_len (λ e. nat_lt (length above.now.0) (length e.0)) behind.now }
    ensures within { result ≤ length behind.now }
{
    behind
        .iter()
        .take_while(|entry| entry.is_longer(above))
        .count()
}

/// Of the entries after one those up to the first whose path hasn't more steps. All below it are among these.
pub(crate) fn front_longer<'a, 'b>(above: &Entry<'_>, behind: &'b [Entry<'a>]) -> &'b [Entry<'a>]
    ensures { result.now ≡ front_longer above.now.0 behind.now }
{
    let (front, _) = behind.split_at(count_longer(above, behind));
    front
}

fn push_if_long<'a>(
    entries: &mut Vec<Entry<'a>>,
    count: usize,
    path: &'a Path,
    given: &'a Given,
) -> Result<(), NoMemory>
    ensures { OnOk result (entries.new.items
        ≡ entries.old.items ++ (if nat_lt count (length path.now) then (path.now, given.now) ∷ [] else [])) }
{
    if count < path.steps().len() {
        entries.push(Entry::of(path, given))?;
    }
    Ok(())
}

/// What is given below a path, in the order of paths.
pub(crate) fn entries_inside<'a>(
    alloc: Global,
    full: &'a Full,
    path: &Path,
) -> Result<Vec<Entry<'a>>, NoMemory>
    ensures { IfOk result (λ entries. entries.items ≡ given_inside full.now path.now) }
{
    let count = path.steps().len();
    let mut entries = Vec::new(alloc);
    let mut walk = full.walk_from(path);
    while let Some((at, given)) = walk.next() {
        if !at.is_below(path) {
            break;
        }
        push_if_long(&mut entries, count, at, given)?;
    }
    Ok(entries)
}
