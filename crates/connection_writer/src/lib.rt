//! The half of a connection that writes: it collects what is sent to the connection, batch after
//! batch, and writes the messages until the connection has gone.
#![tactic(auto)]

mod batches;
mod desk;
mod ends;
mod writer;

pub use desk::{AnswerDesk, Begun, submit_at_desk, write_as_it_comes};
pub use ends::WriterEnd;
pub use writer::{Writer, write_answers, write_on};
