ghost use Rattle.std.specs.Prelude.{◌≡◌};

use cfg_base::Step;
use std::marker::Model;

/// A list of steps, as of the children of a path.
#[derive(Debug, Drop)]
pub struct Steps {
    steps: Vec<Step>,
}

impl Model for Steps {
    ghost use Rattle.std.specs.Prelude.{List};
    ghost use Rattle.cfg_base.specs.declared.path.Step.{Step};

    ghost Value = { List Step };

    ghost view = { λ s. s.steps.items };
}

impl Steps {
    /// The steps, in order.
    pub fn as_slice(&self) -> &[Step]
        ensures { result.now ≡ self.now }
    {
        &self.steps
    }
}

impl From<Vec<Step>> for Steps {
    ghost from_gives = { λ source steps. steps ≡ source.items };

    fn from(steps: Vec<Step>) -> Steps {
        Steps { steps }
    }
}
