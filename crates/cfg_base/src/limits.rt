ghost use Rattle.std.specs.Prelude.{◌≡◌};
ghost use Rattle.cfg_base.specs.declared.moment.TheConstants.{MOMENT_MAX};
ghost use Rattle.cfg_base.specs.declared.path.TheConstants.{MAX_STEPS};
ghost use Rattle.cfg_base.specs.declared.word.TheConstants.{MAX_BYTES};

/// What a run may take: bytes of one session's input, and bytes of a journal file's used part.
#[derive(Clone, Copy, Debug, PartialEq, Eq)]
pub struct Limits {
    pub input: u64,
    pub journal: u64,
}

/// The limits that the clauses of this crate cite, by their numbers.
pub fn limits_are_stated()
    ensures words { MAX_BYTES ≡ 255 }
    ensures paths { MAX_STEPS ≡ 16 }
    ensures moments { MOMENT_MAX ≡ 253370764800 }
{}
