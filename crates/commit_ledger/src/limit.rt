ghost use Rattle.std.specs.Prelude.{◌≡◌};
ghost use Rattle.commit_ledger.specs.declared.limit.TheConstants.{MAX_ENTRIES};

/// The most entries that a list gets by commands. A revert may make one more.
pub const MAX_ENTRIES: u64 = 1 << 62;

/// The limit that the clauses of this crate cite, by its number.
pub fn limits_are_stated()
    ensures entries { MAX_ENTRIES ≡ 4611686018427387904 }
{}
