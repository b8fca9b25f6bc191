//! The name of a statement, and its parts.

ghost use Rattle.std.specs.Prelude.{◌≡◌, ◌<◌, ◌==◌, [], length, position};
ghost use Rattle.std.specs.List.{before_first, after_first};
ghost use Rattle.cfg_tree.specs.Statements.{last_of};

use cfg_base::Path;

/// The name in the last step of a path.
pub fn last_name(path: &Path) -> &[u8]
    ensures name { result.now ≡ (last_of path.now).name }
    ensures within { length result.now < 256 }
{
    match path.steps().last() {
        Some(step) => step.name.as_bytes(),
        None => b"",
    }
}

/// Where a mark stands first.
fn place(name: &[u8], mark: u8) -> Option<usize>
    ensures { result ≡ position (λ b. b == mark) name.now }
{
    name.iter().position(|&byte| byte == mark)
}

/// What stands before the first mark, which is all where there is none, and what stands after it.
pub fn cut(name: &[u8], mark: u8) -> (&[u8], &[u8])
    ensures before { result.0.now ≡ before_first (λ b. b == mark) name.now }
    ensures after { result.1.now ≡ after_first (λ b. b == mark) name.now }
{
    match place(name, mark) {
        Some(at) => (&name[..at], &name[at + 1..]),
        None => (name, b""),
    }
}
