//! Where a walk over a JSON value stands.

ghost use Rattle.std.specs.Prelude.{◌≡◌, ◌<◌, length, IfOk};
ghost use Rattle.cfg_base.specs.declared.path.TheConstants.{MAX_STEPS};
ghost use Rattle.json_text.specs.Collecting.{spot_in};
ghost use Rattle.json_text.specs.Said.{spot_at, top_spot};

use cfg_base::{NoMemory, Path, Step};
use cfg_schema::{Place, RowId};
use std::alloc::Global;

/// The path of a statement, or the top, and where it leads.
#[derive(Debug, Drop)]
pub(crate) struct Here {
    pub path: Path,
    pub place: Place,
}

impl Here {
    pub fn top(alloc: Global) -> Here
        ensures { spot_in result ≡ top_spot }
    {
        Here {
            path: Path::top(alloc),
            place: Place::top(),
        }
    }

    /// The statement of a row with this step.
    pub fn below(&self, id: RowId, step: Step) -> Result<Here, NoMemory>
        requires { length self.now.path < MAX_STEPS }
        ensures { IfOk result (λ child. spot_in child ≡ spot_at (spot_in self.now) id step) }
    {
        match self.path.push(step) {
            Ok(path) => Ok(Here {
                path,
                place: self.place.entered(id),
            }),
            Err(_) => Err(NoMemory),
        }
    }
}
