// The turns of a load: which policy files of a tree are read, and in which order (polkit(8),
// "Declaring Actions"; pklocalauthority(8), "Directory Structure" and "Evaluation Order").
// The directories are listed, and no file is read.
mod listing;
mod path;
mod turn;
mod turn_order;

pub use path::{below, names_at, read_at};
pub use turn::{FileKind, Turn};
pub use turn_order::turns;
