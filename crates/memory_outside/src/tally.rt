// A count without bound.
ghost use Rattle.std.specs.Prelude.{◌≡◌, ◌+◌};
ghost use Rattle.memory_outside.specs.Tally.{count_in};

use std::snapshot::Snapshot;

/// A count without bound, which clauses alone read. It takes no memory.
#[derive(Drop)]
pub(crate) struct Tally {
    less: Option<Snapshot<Tally>>,
}

impl Tally {
    /// The count 0.
    pub(crate) fn new() -> Self
        ensures none { count_in result ≡ 0 }
    {
        Tally { less: None }
    }

    /// Counts one more.
    pub(crate) fn count(&mut self)
        ensures one { count_in self.new ≡ count_in self.old + 1 }
    {
        let less = Snapshot::of(self);
        self.less = Some(less);
    }
}
