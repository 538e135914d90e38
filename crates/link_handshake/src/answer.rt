// What a line of the client is answered, by where the authentication stands.
ghost use Rattle.std.specs.Prelude.{◌≡◌, drop, length, nat_eq, is_some, IfSome};
ghost use Rattle.std.specs.List.{starts_with};
ghost use Rattle.link_handshake.specs.Answers.{identity, is_auth, is_error, waiting_answer, data_answer, accepted_answer, line_answer};

use crate::digits::is_uid;
use crate::line::text as text_of_line;
use crate::server::ShakeReply;

/// Where the authentication stands (D-Bus Specification, "Authentication state diagrams").
#[derive(Clone, Copy, Debug, PartialEq, Eq)]
pub enum Phase {
    /// The client has to begin it (WaitingForAuth).
    Waiting,
    /// The client was asked for its data (WaitingForData).
    DataAwaited,
    /// The client was accepted (WaitingForBegin).
    Accepted,
}

/// What becomes of a line.
#[derive(Clone, Copy, Debug, PartialEq, Eq)]
pub enum LineAnswer {
    /// It is replied, and the authentication then stands there.
    Says(ShakeReply, Phase),
    /// The messages follow.
    Begins,
    /// It may not come here.
    Bad,
}

fn by_identity(door: u32, digits: &[u8]) -> LineAnswer
    ensures answer { result ≡ identity door digits.now }
{
    if is_uid(door, digits) {
        LineAnswer::Says(ShakeReply::Ok, Phase::Accepted)
    } else {
        LineAnswer::Says(ShakeReply::Rejected, Phase::Waiting)
    }
}

fn is_auth_line(text: &[u8]) -> bool
    ensures is { result ≡ is_auth text.now }
{
    text == b"AUTH".as_slice() || text.starts_with(b"AUTH ")
}

fn is_error_line(text: &[u8]) -> bool
    ensures is { result ≡ is_error text.now }
{
    text == b"ERROR".as_slice() || text.starts_with(b"ERROR ")
}

/// What stands behind this front, where the text begins with it.
fn behind<'a>(front: &[u8], text: &'a [u8]) -> Option<&'a [u8]>
    ensures begins { is_some result ≡ starts_with nat_eq text.now front.now }
    ensures behind { IfSome result (λ rest. rest.now ≡ drop (length front.now) text.now) }
{
    text.strip_prefix(front)
}

fn when_waiting(door: u32, text: &[u8]) -> LineAnswer
    ensures answer { result ≡ waiting_answer door text.now }
{
    if text == b"BEGIN".as_slice() {
        return LineAnswer::Bad;
    }
    if text == b"AUTH EXTERNAL".as_slice() {
        return LineAnswer::Says(ShakeReply::Data, Phase::DataAwaited);
    }
    if let Some(digits) = behind(b"AUTH EXTERNAL ", text) {
        return by_identity(door, digits);
    }
    if is_auth_line(text) || is_error_line(text) {
        return LineAnswer::Says(ShakeReply::Rejected, Phase::Waiting);
    }
    LineAnswer::Says(ShakeReply::ErrorLine, Phase::Waiting)
}

fn when_data_awaited(door: u32, text: &[u8]) -> LineAnswer
    ensures answer { result ≡ data_answer door text.now }
{
    if text == b"BEGIN".as_slice() {
        return LineAnswer::Bad;
    }
    if text == b"DATA".as_slice() || text == b"DATA ".as_slice() {
        return LineAnswer::Says(ShakeReply::Ok, Phase::Accepted);
    }
    if let Some(digits) = behind(b"DATA ", text) {
        return by_identity(door, digits);
    }
    if text == b"CANCEL".as_slice() || is_error_line(text) {
        return LineAnswer::Says(ShakeReply::Rejected, Phase::Waiting);
    }
    LineAnswer::Says(ShakeReply::ErrorLine, Phase::DataAwaited)
}

fn when_accepted(text: &[u8]) -> LineAnswer
    ensures answer { result ≡ accepted_answer text.now }
{
    if text == b"BEGIN".as_slice() {
        return LineAnswer::Begins;
    }
    if text == b"CANCEL".as_slice() || is_error_line(text) {
        return LineAnswer::Says(ShakeReply::Rejected, Phase::Waiting);
    }
    LineAnswer::Says(ShakeReply::ErrorLine, Phase::Accepted)
}

/// What a line without its LF is answered at a door of that uid.
#[tactic(auto, unfolding(crate::specs::Answers::line_answer))]
pub fn answer(door: u32, phase: Phase, line: &[u8]) -> LineAnswer
    ensures answer { result ≡ line_answer door phase line.now }
{
    let Some(text) = text_of_line(line) else {
        return LineAnswer::Bad;
    };
    match phase {
        Phase::Waiting => when_waiting(door, text),
        Phase::DataAwaited => when_data_awaited(door, text),
        Phase::Accepted => when_accepted(text),
    }
}
