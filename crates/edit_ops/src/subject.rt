//! What the words of a change name.

ghost use Rattle.std.specs.Prelude.{◌≡◌};
ghost use Rattle.edit_ops.specs.Change.{other_of};

use cfg_base::Path;
use cfg_resolve::Target;

/// What the words of a change name: a statement with words after it, and a second statement where the change has words
/// for one.
#[derive(Debug, Drop)]
pub struct Subject {
    pub target: Target,
    pub other: Option<Path>,
}

impl Subject {
    /// The second statement, or the first where it is named alone.
    pub(crate) fn other(&self) -> &Path
        ensures { result.now ≡ other_of self.now }
    {
        match &self.other {
            Some(other) => other,
            None => &self.target.path,
        }
    }
}
