// What one load gives.
ghost use Rattle.std.specs.Prelude.{◌≡◌};

use crate::{Policy, World};
use pk_types::{List, Text};
use std::alloc::Global;

/// A policy file, or something in one, that was skipped.
#[derive(Drop)]
pub struct FileFault {
    /// The path, with the root before it.
    pub file: Text,
    /// The name of the fault's kind.
    pub kind: Text,
    /// The place that the fault's kind counts: a byte, a group, an item or an action, from 0.
    pub at: u64,
}

/// A list of what was skipped.
pub type FileFaultList = List<FileFault>;

/// One load: a policy and a world, and what was skipped.
///
/// Loads are named by their places, counted from 1. Load 0 is the empty policy and world.
#[derive(Drop)]
pub struct Loaded {
    pub policy: Policy,
    pub world: World,
    /// What was skipped.
    pub faults: FileFaultList,
}

/// A list of loads.
pub type LoadedList = List<Loaded>;

impl Loaded {
    ghost use Rattle.authority_model.specs.Items.{empty_loaded};

    /// Load 0: the empty policy and world. It takes no memory.
    pub fn empty(alloc: Global) -> Loaded
        ensures empty { result ≡ empty_loaded }
    {
        Loaded {
            policy: Policy {
                actions: List::new(alloc),
                entries: List::new(alloc),
                admins: List::new(alloc),
            },
            world: World {
                users: List::new(alloc),
                groups: List::new(alloc),
                sessions: List::new(alloc),
                processes: List::new(alloc),
            },
            faults: List::new(alloc),
        }
    }
}
