//! What one connection does to the journal, said of its own pass alone: what it handed in, and what
//! it has taken of the outputs to another connection. Each law is the clause of a function that does
//! nothing. They are what the calls of `shared_authority` mean for a caller that goes on calling, so
//! a loop keeps them as it keeps its pass.
#![tactic(auto)]

mod doings;
mod passes;
mod takings;

pub use doings::doings_grow;
pub use passes::{passes_learn, refusals_tell_of_others};
pub use takings::{collects_find, collects_take_all, takings_stay};
