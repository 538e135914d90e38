// What an action file says.
use authority_model::ActionList;

/// The actions that an action file declares.
#[derive(Drop)]
pub struct ActionFile {
    /// The actions, in the order of the file.
    pub actions: ActionList,
}
