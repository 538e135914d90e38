//! What the program `pkaudit` does: it reads an audit text, and says whether the journal that it spells
//! is as the authority must have made it.
//!
//! It stands on no table of the authority, nor on its journal: each event is answered anew over plain
//! lists.
#![tactic(auto)]

mod line;
mod status;
mod telling;
mod top;

pub use status::AuditStatus;
pub use top::pkaudit;
