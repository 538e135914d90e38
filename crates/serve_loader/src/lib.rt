//! The loader of a server: it collects what was sent to connection 0, loads the tree again for each
//! LoadWanted, hands in what each load gave, and stops at StopWanted.
#![tactic(auto)]

mod ends;
mod fresh;
mod loader;
mod loading;
mod wanted;

pub use ends::LoaderEnd;
pub use fresh::loaders_stay_unconnected;
pub use loader::serve_loader;
