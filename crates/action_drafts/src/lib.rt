//! The elements of an action file, as polkit(8), "Declaring Actions", describes them, in polkit's
//! profile of XML: what a document says as a draft, or its first fault, and the actions of a draft.
#![tactic(auto)]

mod action;
mod defaults;
mod documents;
mod draft;
mod finished;
mod origin;

pub use documents::document;
pub use draft::{ActionDraft, Defaults, DraftList, Element, FileDraft, Origin, OriginPart};
pub use finished::all_finished;
