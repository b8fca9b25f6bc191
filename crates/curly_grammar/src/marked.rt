ghost use Rattle.std.specs.Prelude.{◌≡◌};

use cfg_base::Path;
use cfg_tree::Tree;
use std::marker::Model;

/// Paths, in the order in which they are met.
#[derive(Debug, Drop)]
pub struct Paths {
    paths: Vec<Path>,
}

impl Model for Paths {
    ghost use Rattle.std.specs.Prelude.{List};
    ghost use Rattle.cfg_base.specs.declared.path.Step.{Step};

    ghost Value = { List (List Step) };

    ghost view = { λ p. p.paths.items };
}

impl Paths {
    pub(crate) fn of(paths: Vec<Path>) -> Paths
        ensures { result ≡ paths.items }
    {
        Paths { paths }
    }

    /// The paths, in order.
    pub fn as_slice(&self) -> &[Path]
        ensures { result.now ≡ self.now }
    {
        &self.paths
    }
}

/// The statements that a text says, and the paths that it tags `replace:`.
#[derive(Debug, Drop)]
pub struct Marked {
    pub tree: Tree,
    pub replaced: Paths,
}
