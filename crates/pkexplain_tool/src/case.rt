// What is explained.
use pk_types::{Category, Text};

/// A user in a category who asks for an action.
#[derive(Drop)]
pub struct Case {
    pub uid: u32,
    pub category: Category,
    /// The id of the action.
    pub action: Text,
}
