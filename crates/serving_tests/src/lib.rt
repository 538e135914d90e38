//! A writer, connections, the loader and slots over one authority, tested at objects in memory.
#![tactic(auto)]

#[cfg(test)]
mod closed_doors;
#[cfg(test)]
mod connections;
#[cfg(test)]
mod idle_doors;
#[cfg(test)]
mod live_connections;
#[cfg(test)]
mod loaders;
#[cfg(test)]
mod moments;
#[cfg(test)]
mod passes;
#[cfg(test)]
mod wire;
#[cfg(test)]
mod writers;
