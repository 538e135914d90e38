//! The public types of the authority, and the definitions that every contract above cites.
//!
//! The types say what a policy, a world, an event and a history are. `specs/` says, over them, who
//! is connected, which agent is in force, which challenge is pending, which grant is live, what is
//! decided, and what each event is answered. The rules that speak of one of these types alone are its
//! methods; nothing here decides anything itself.
#![tactic(auto)]

mod causes;
mod cookies;
mod copies;
mod event;
mod event_copies;
mod facts;
mod identities;
mod interaction;
mod journal;
mod key;
mod load;
mod locale;
mod message;
mod names;
mod offered;
mod pending;
mod policy;
mod process_id;
mod reasons;
mod verdict;
mod world;

pub use cookies::push_grant_text;
pub use event::{Call, Event};
pub use facts::Facts;
pub use identities::IdentityFault;
pub use interaction::{ALLOW_USER_INTERACTION, allows_interaction};
pub use journal::{Entry, EntryList, History, Item, Limits, MAX_BYTES, MAX_ENTRIES};
pub use key::{Key, KeyRef};
pub use load::{FileFault, FileFaultList, Loaded, LoadedList};
pub use locale::localized;
pub use message::{Answer, ErrorCause, Message, Output, OutputList};
pub use names::bus_name;
pub use offered::offers;
pub use pending::{Agent, MAX_PENDING, Pending};
pub use policy::{Action, ActionList, Localized, LocalizedList, Policy, RuleEntry, RuleList};
pub use process_id::ProcessId;
pub use verdict::{
    Cookie, Decision, GRANT_SECONDS, GrantRow, GrantRowList, Reason, RuleSource, Verdict,
};
pub use world::{
    GidList, Group, GroupList, Process, ProcessList, Session, SessionList, User, UserList, World,
};
