//! Slots beside each other. A slot has a door with a clock and a salt of its own, and serves the
//! links of its door one after another. Each served connection leaves a line. Where a slot has looks at
//! processes, its connections look.
//!
//! All slots share one authority, and run beside each other and beside the loader. What each of
//! them did is said of its own pass's history alone, and goes on to hold as that history grows
//! (`specs/Served.antt`), so that at the end it holds of the one journal.
#![tactic(auto)]

mod accepting;
mod admitting;
mod beside;
mod line;
mod opening;
mod serving;
mod slot;
mod slots;
mod stop;

pub use beside::{EndedService, OpenService, serve_beside_loader};
pub use line::Line;
pub use opening::{Place, ShutSlot, open_slot, shut_slot};
pub use slot::Slot;
pub use slots::serve_slots;
pub use stop::SlotStop;
