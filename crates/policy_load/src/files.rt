// What the policy files of a tree come to, each by itself and all together (polkit(8), "Declaring
// Actions"; pklocalauthority(8), "Directory Structure").
//
// This is done in phases, each a function of its own: the files of the turns of a load are read, each
// file is parsed by itself, and what was found is joined in the order of the turns.
mod finding;
mod joined;
mod joining;
mod kept;
mod reading;
mod skipping;

pub use finding::{Finding, find, find_each};
pub use joined::Joined;
pub use joining::join;
pub use reading::{MAX_FILES, MAX_POLICY_BYTES, ReadFiles, TurnFile, file_count, read_files};
