//! The daemon's commands and its top call, over any objects of the outside.
#![tactic(auto)]

mod command;
mod generating;
mod piping;
mod replaying;
mod serving;
mod status;
mod top;

pub use command::Command;
pub use dbus_values::FaultKind;
pub use generating::load_run;
pub use piping::pipe;
pub use policy_load::{LoadLimit, LoadRefused};
pub use replaying::{audit, replay, replay_segments};
pub use scenario_text::LineKind;
pub use serving::serve;
pub use status::Status;
pub use table_files::TableFault;
pub use top::polkitd;
