//! Texts, action ids, subjects, identities and implicit values, the lists that hold them, and bytes
//! cut at a separator: the lines of a file, the words of a line, the parts of a word.
//!
//! Every crate of the authority speaks in these types. Contracts see a text as its bytes, an
//! action id as the bytes of its text, and a list as the list of its items.
#![tactic(auto)]

mod action_id;
mod copies;
mod cutting;
mod decimals;
mod list;
mod reserved;
mod text;
mod values;

pub use action_id::{ActionId, IdFault};
pub use copies::TryCopy;
pub use cutting::{cut, is_blank, lines, pieces};
pub use decimals::{MAX_NUMBER, number, number_up_to};
pub use list::{List, NoMemory};
pub use reserved::Reserved;
pub use text::{MAX_TEXT, Text, TextFault, bad_byte};
pub use values::{Category, Identity, Implicit, Pair, Subject};

/// A list of texts.
pub type TextList = List<Text>;

/// A list of bytes.
pub type ByteList = List<u8>;

/// A list of keys with their values.
pub type PairList = List<Pair>;

/// A list of identities.
pub type IdentityList = List<Identity>;
