//! The pieces of an XML document in polkit's profile, read from the front: white space, names,
//! references, comments, processing instructions, DOCTYPE, tags with their attributes, and texts.
//!
//! Each function reads what stands at the front of bytes that reach to the end of the file, and
//! answers what it found and the bytes behind it, or the first fault. A fault knows its place as
//! the number of bytes that are left from there on.
#![tactic(auto)]

mod attributes;
mod bytes;
mod children;
mod fault;
mod keyed_texts;
mod markup;
mod references;
mod texts;
mod walk;

pub use attributes::{StartTag, start_tag};
pub use bytes::{behind, name};
pub use children::{Next, next_child};
pub use fault::{Fault, Stop, XmlFaultKind, cut_off, fault_at};
pub use keyed_texts::KeyedTexts;
pub use markup::{prolog, xml_declaration};
pub use texts::text;
pub use walk::Walk;
