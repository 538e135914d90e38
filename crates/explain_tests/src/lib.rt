//! Explanations over a tree and a sink in memory, which may fail at a call.
#![tactic(auto)]

#[cfg(test)]
mod runs;
#[cfg(test)]
mod trees;
