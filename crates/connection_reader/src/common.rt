// What the two halves of a connection have in common.
use connection_writer::{AnswerDesk, Begun};
use history_lock::TableName;
use pk_outside::Sink;
use shared_authority::{LimitsName, Shared};
use std::sync::{Mutex, Wait};

/// What the two halves of a connection have in common: the threads that they run in, the authority,
/// and the desk at which the answers are written.
#[derive(Drop)]
pub struct Common<'a, 'w, L: LimitsName, T: TableName, O: Sink, B: Begun, R: Wait> {
    /// What lets them wait.
    pub rt: &'a R,
    /// The authority, which all connections share.
    pub shared: &'a Shared<L, T>,
    /// The desk.
    pub desk: &'a Mutex<AnswerDesk<'w, L, T, O, B>>,
}
