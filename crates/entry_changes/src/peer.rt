// What is known of a connection.
use authority_model::ProcessId;

/// A connection that ever connected.
#[derive(Clone, Copy, Debug, PartialEq, Eq)]
pub struct Peer {
    /// The uid of its first Connect.
    pub uid: u32,
    /// It departed after that.
    pub departed: bool,
    /// The process that it announced last, where that was accepted.
    pub announced: Option<ProcessId>,
}

impl Peer {
    ghost use Rattle.std.specs.Prelude.{◌≡◌, ◌==◌, ◌||◌, not};
    ghost use Rattle.entry_changes.specs.Known.{live_announced};

    /// Whether it has not departed.
    pub fn is_live(self) -> bool
        ensures live { result ≡ not self.departed }
    {
        !self.departed
    }

    /// The process that it announced last, unless it has departed.
    pub fn live_announced(self) -> Option<ProcessId>
        ensures process { result ≡ live_announced self }
    {
        if self.departed { None } else { self.announced }
    }

    /// Whether its uid is 0.
    pub fn is_root(self) -> bool
        ensures root { result ≡ (self.uid == 0) }
    {
        self.uid == 0
    }

    /// Whether it may speak for a user: its uid is this one, or 0.
    pub fn may_for(self, uid: u32) -> bool
        ensures may { result ≡ (self.uid == uid) || (self.uid == 0) }
    {
        self.uid == uid || self.uid == 0
    }
}
