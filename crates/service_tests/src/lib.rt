//! The service with its clients, tested as a whole over stations in memory.
#![tactic(auto)]

#[cfg(test)]
mod alike;
#[cfg(test)]
mod calls;
#[cfg(test)]
mod clocks;
#[cfg(test)]
mod crossing;
#[cfg(test)]
mod cues;
#[cfg(test)]
mod listening;
#[cfg(test)]
mod looks;
#[cfg(test)]
mod memory;
#[cfg(test)]
mod rows;
#[cfg(test)]
mod wire;
#[cfg(test)]
mod written;
