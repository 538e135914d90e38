// What is known of a subject.
use crate::KeyRef;
use pk_types::{Category, Text};

/// What is known of a subject, with borrowed texts.
#[derive(Clone, Copy)]
pub struct Facts<'a> {
    /// Its user.
    pub uid: u32,
    /// Whether its session is local and active.
    pub category: Category,
    /// What agents and grants for it go by.
    pub key: KeyRef<'a>,
    /// The id of its session, where that is listed.
    pub session: Option<&'a Text>,
}
