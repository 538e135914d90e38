//! Parts that several crates of tests share: counts that threads wait for, a tree of files in memory,
//! messages, stations whose links are listened to, and passes.
#![tactic(auto)]

mod count;
mod folder;
mod heard;
mod passes;
mod trees;
mod wire;

pub use count::{Count, TURNS_OF_RUN};
pub use folder::{new_folder, socket_station};
pub use heard::{HeardLink, HeardSource, HeardStation};
pub use passes::{begin, new_pass};
pub use trees::{ROOT, output, texts, tree};
pub use wire::{ASK, CHECK_YES, RELOAD, SHAKE_ALICE, SHAKE_ROOT};
