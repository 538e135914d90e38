// Looks at processes in memory, which give the sightings that they were made with.
ghost use Rattle.std.specs.Prelude.{◌≡◌, ◌≤◌, ◌++◌, ◌∷◌, [], Some, length};
ghost use Rattle.memory_outside.specs.Looks.{looks_in};
ghost use Rattle.pk_outside.specs.Sightings.{GivesSighting, SightCause};

use pk_outside::{Sighted, Sights};
use pk_types::List;
use std::alloc::Global;
use std::snapshot::Snapshot;

/// The looks that were taken, which clauses alone read. It takes no memory.
#[derive(Drop)]
pub(crate) struct Looks {
    pid: u32,
    sighted: Sighted,
    before: Option<Snapshot<Looks>>,
}

impl Looks {
    /// No look.
    fn new() -> Self
        ensures none { looks_in result ≡ [] }
    {
        Looks {
            pid: 0,
            sighted: Sighted::Gone,
            before: None,
        }
    }

    /// Adds a look after the others.
    fn add(&mut self, pid: u32, sighted: Sighted)
        ensures one { looks_in self.new ≡ looks_in self.old ++ record { pid = pid; sighted = sighted } ∷ [] }
    {
        let before = Snapshot::of(self);
        *self = Looks {
            pid,
            sighted,
            before: Some(before),
        };
    }
}

/// Looks at processes in memory: they give their sightings, whatever process is asked for, and then
/// `Gone`. A sighting `Failed` counts a fault. They tell all that they gave in every state.
#[derive(Drop)]
pub struct ListSights {
    sightings: List<Sighted>,
    at: usize,
    looks: Looks,
    faults: u64,
    ghost within: { at ≤ length sightings },
}

impl ListSights {
    ghost use Rattle.memory_outside.specs.HeldSights.{sights_left, sights_gave, sights_faults};

    /// Looks that give these sightings. It takes no memory.
    pub fn new(sightings: List<Sighted>) -> Self
        ensures left { sights_left result ≡ sightings }
        ensures gave { sights_gave result ≡ [] }
        ensures sound { sights_faults result ≡ 0 }
    {
        ListSights {
            sightings,
            at: 0,
            looks: Looks::new(),
            faults: 0,
        }
    }

    /// Looks that find no process. It takes no memory.
    pub fn empty(alloc: Global) -> Self
        ensures left { sights_left result ≡ [] }
        ensures gave { sights_gave result ≡ [] }
        ensures sound { sights_faults result ≡ 0 }
    {
        ListSights::new(List::new(alloc))
    }

    /// How many looks failed.
    pub fn faults(&self) -> u64
        ensures faults { result ≡ sights_faults self.now }
    {
        self.faults
    }

    /// The next sighting.
    fn next(&mut self) -> Sighted
        ensures next { GivesSighting (Some (sights_left self.old)) (Some (sights_left self.new)) result }
        ensures gave { sights_gave self.new ≡ sights_gave self.old }
        ensures count { sights_faults self.new ≡ sights_faults self.old }
    {
        let sightings = self.sightings.as_slice();
        if self.at < sightings.len() {
            let sighted = sightings[self.at];
            self.at += 1;
            return sighted;
        }
        Sighted::Gone
    }

    /// Counts a fault where the look failed.
    fn count(&mut self, sighted: Sighted)
        ensures cause { SightCause (sights_faults self.old) (sights_faults self.new) sighted }
        ensures others { self.new ≡ record self.old { faults = sights_faults self.new } }
    {
        if let Sighted::Failed = sighted {
            self.faults = self.faults.saturating_add(1);
        }
    }
}

impl Sights for ListSights {
    ghost use Rattle.std.specs.Prelude.{Some, drop};
    ghost use Rattle.memory_outside.specs.Looks.{looks_in};

    ghost left = { λ s. Some (drop s.at s.sightings) };

    ghost gave = { λ s. Some (looks_in s.looks) };

    ghost faults = { λ s. s.faults };

    fn sight(&mut self, pid: u32) -> Sighted {
        let sighted = self.next();
        self.looks.add(pid, sighted);
        self.count(sighted);
        sighted
    }
}
