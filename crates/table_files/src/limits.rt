// The greatest sizes.

/// The greatest number of bytes of a table's file: 16 MiB.
pub const MAX_FILE: usize = 16_777_216;

/// The greatest number of rows of a table.
pub const MAX_ROWS: usize = 65_536;

/// The greatest number of bytes of a user's name, a group's name and a session id.
pub const MAX_NAME: usize = 4_096;
