//! The words of a line, and how values are spelled by them.
#![tactic(auto)]

mod buffer;
mod digits;
mod fault;
mod line;
mod salts;
mod texts;
mod words;
mod writing;

pub use buffer::LineBuffer;
pub use fault::{Kind, Stop};
pub use line::lines_are_words;
pub use salts::{put_cookie, put_salt};
pub use texts::MAX_NAME;
pub use words::Words;
pub use writing::{put_boolean, put_number, put_plain, put_text};
