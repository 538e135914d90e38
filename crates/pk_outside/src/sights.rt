// Looks at processes.
ghost use Rattle.std.specs.Prelude.{List, ℕ, Option};
ghost use Rattle.pk_outside.specs.Sightings.{Look, GivesSighting, Looked, SightCause};

/// What is seen of a process.
#[derive(Clone, Copy, Debug, PartialEq, Eq)]
pub enum Sighted {
    /// The process exists, and started at this time.
    Alive {
        /// The time, in the unit of the system.
        start: u64,
    },
    /// No process has this id.
    Gone,
    /// The look failed, and was counted.
    Failed,
}

/// Looks at processes.
pub trait Sights: Drop + Send {
    ghost use Rattle.pk_outside.specs.declared.sights.Sighted.{Sighted};

    /// The sightings that it will give, in this order, whatever process is asked for, where they
    /// are told. After them it gives `Gone`.
    ghost left: { Self → Option (List Sighted) };

    /// The processes that were asked for, each with the sighting that was given, where they are
    /// told.
    ghost gave: { Self → Option (List Look) };

    /// How often a look has failed.
    ghost faults: { Self → ℕ };

    /// Looks at the process with this id. It takes no memory.
    fn sight(&mut self, pid: u32) -> Sighted
        ensures next { GivesSighting (left self.old) (left self.new) result }
        ensures gave { Looked (gave self.old) (gave self.new) pid result }
        ensures cause { SightCause (faults self.old) (faults self.new) result };
}
