//! The administrators (pklocalauthority(8), "Administrator Authentication"): who may answer a
//! challenge that asks for one.
//!
//! `admins` reads them from the files of localauthority.conf.d, and `expand` says for whom they
//! stand. A user stands for itself, and a group for the users whose row lists it, other than uid 0.
//! Each is in the list once, in the order of the words and then of the user table.
#![tactic(auto)]

mod configured;
mod expanding;
mod fault;
mod members;

pub use configured::admins;
pub use expanding::expand;
pub use fault::AdminFault;
