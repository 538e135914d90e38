//! Audit texts: texts of all variants, first faults, and objects that fail.
#![tactic(auto)]

#[cfg(test)]
mod texts;
