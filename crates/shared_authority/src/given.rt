// What is handed in for a connection.
use authority_model::Event;

/// What is handed in for a connection: an event, and the moment and the random word of its entry.
#[derive(Drop)]
pub struct Given {
    /// The moment, in seconds.
    pub moment: u64,
    /// The random word.
    pub salt: u128,
    /// What is asked.
    pub event: Event,
}
