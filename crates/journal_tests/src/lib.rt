//! Tests of what no program shows of a journal: collecting, its limits, the decision without an entry,
//! a desk with its Stop of the loader, audits of a closed journal, and copies of the types that it is
//! made of.
#![tactic(auto)]

#[cfg(test)]
mod calls;
#[cfg(test)]
mod collecting;
#[cfg(test)]
mod copies;
#[cfg(test)]
mod deciding;
#[cfg(test)]
mod desks;
#[cfg(test)]
mod full;
#[cfg(test)]
mod scans;
#[cfg(test)]
mod sightings;
