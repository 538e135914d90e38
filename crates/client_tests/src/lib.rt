//! The clients with objects that fail: a check and an agent over links in memory.
#![tactic(auto)]

#[cfg(test)]
mod agents;
#[cfg(test)]
mod checks;
#[cfg(test)]
mod doors;
#[cfg(test)]
mod ends;
#[cfg(test)]
mod messages;
