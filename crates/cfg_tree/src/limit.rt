/// The most statements that a configuration has.
pub const MAX_STATEMENTS: usize = 16_384;

/// The most paths that an expansion has.
pub const MAX_EXPANDED: usize = 65_536;
