//! A lock that counts its history. A machine lies under it, whose calls append one entry each to a
//! list. Each caller has a pass, which stands for its number and for the history that it knows, so
//! a call says what it did in terms of the caller's own pass: which entries of others came, and
//! then which one of its own. `docs/lock.md` explains the rule that the lock keeps.
#![tactic(auto)]

mod lock;
mod locked;
mod machine;
mod pass;
mod plays;
mod refused;
mod steps;
mod turns;
mod view;
mod woken;

pub use lock::{HistoryLock, Opened, open_table};
pub use locked::NextAnswer;
pub use machine::{EndCause, MOST_PASSES, Machine};
pub use pass::{Pass, TableName};
pub use refused::{AdmitRefused, CallRefused};
pub use view::{Counted, Kind, View};
pub use woken::Woken;
