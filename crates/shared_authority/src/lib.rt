//! The authority under the lock that counts its history. Many threads hand in events and loads
//! through passes of their own, and each call says what became of the one journal in terms of the
//! caller's pass alone. `docs/lock.md` explains how.
#![tactic(auto)]

mod collecting;
mod given;
mod kept;
mod operation;
mod refused;
mod shared;
mod waking;

pub use collecting::{CollectRefused, Collected, CollectedNow};
pub use given::Given;
pub use kept::{Kept, LimitsName};
pub use operation::{Op, Refusal, Reply};
pub use refused::{SubmitLoadRefused, SubmitRefused, SubmitUnlistRefused};
pub use shared::Shared;
