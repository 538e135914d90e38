//! The program `pkexplain`: what decides each action for each user of a root, and which rules of the
//! local authority decide nothing.
//!
//! [`pkexplain`] loads the tree below a root, and writes a line for each file that was skipped, for
//! each user, category and action, and for each rule. What stands in these lines is a definition over
//! the load (`specs/Lines.antt`), which says the implicit value of each case as the model does.
#![tactic(auto)]

mod account;
mod case;
mod cases;
mod lines;
mod report;
mod rules;
mod status;
mod stop;
mod top;
mod words;

pub use case::Case;
pub use status::ExplainStatus;
pub use top::pkexplain;
pub use words::root_in;
