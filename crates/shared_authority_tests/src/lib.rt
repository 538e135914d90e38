//! Checks of the authority that many threads share: it ends where its journal is full, one
//! connection collects what is sent to another, and what two threads hand in at once stands in the
//! one journal.
#![tactic(auto)]

#[cfg(test)]
mod passes;
#[cfg(test)]
mod ten_tests;
#[cfg(test)]
mod tests;
#[cfg(test)]
mod turns;
#[cfg(test)]
mod waiting_tests;
