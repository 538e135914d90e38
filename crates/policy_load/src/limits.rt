// The limits of what is loaded.

/// The greatest number of actions of a load.
pub const MAX_ACTIONS: usize = 4_096;

/// The greatest number of authorization entries of a load.
pub const MAX_RULES: usize = 16_384;
