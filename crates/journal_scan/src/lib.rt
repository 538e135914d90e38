//! The facts about a closed journal that no connection can know by itself, looked for in the journal
//! and in the `connection` lines: whose entries there are and in which order, when loads come, that
//! no caller collects twice to the end. Besides, the counts that the printed lines tell.
#![tactic(auto)]

mod callers;
mod collects;
mod counts;
mod laws;
mod lines;
mod loading;
mod same;
mod scan;
mod sightings;

pub use counts::{Counts, PLACES, Tally, Totals};
pub use laws::items_belong;
pub use lines::ConnectionLine;
pub use scan::scan_journal;
