ghost use Rattle.std.specs.Prelude.{◌≡◌};
ghost use Rattle.cfg_values.specs.declared.fault.ValueFault.TheVariants.{NoMemory};

use cfg_base::Kind;
use std::alloc::AllocError;
use thiserror::Error;

/// Why bytes have no canonical spelling as a value.
#[derive(Clone, Copy, Debug, PartialEq, Eq, Error)]
pub enum ValueFault {
    #[error("not of the kind {0:?}")]
    NotOfKind(Kind),
    #[error("out of memory")]
    NoMemory,
}

impl From<AllocError> for ValueFault {
    ghost from_gives = { λ _ fault. fault ≡ NoMemory };

    fn from(_: AllocError) -> ValueFault {
        ValueFault::NoMemory
    }
}
