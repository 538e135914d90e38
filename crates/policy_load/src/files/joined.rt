// What the files of a load come to together.
use authority_model::{ActionList, FileFaultList, RuleList};
use keyfile_text::GroupsList;

/// What the files of a load come to together, each list in the order of the turns.
#[derive(Drop)]
pub struct Joined {
    /// Each id once.
    pub actions: ActionList,
    pub entries: RuleList,
    /// The administrators' files that count.
    pub admins: GroupsList,
    /// What was skipped.
    pub faults: FileFaultList,
}
