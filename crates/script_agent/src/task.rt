// What an agent is run with.
use agent_rules::Rules;
use pk_types::Text;

/// The greatest number of challenges that an agent meets.
pub const MAX_COUNT: u32 = 1_000_000;

/// What an agent is run with.
#[derive(Drop)]
pub struct Task {
    /// The user of the authority's door.
    pub uid: u32,
    /// The path of the authority's door.
    pub path: Text,
    /// The path of the helper's door, which is one of uid 0.
    pub helper: Text,
    /// The session that the agent registers for.
    pub session: Text,
    /// How its challenges are handled.
    pub rules: Rules,
    /// How many challenges it meets.
    pub count: u32,
}
