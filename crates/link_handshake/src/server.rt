// The server's half.
ghost use Rattle.std.specs.Prelude.{◌≡◌, ℕ, suc, List, [], ◌∷◌, ◌++◌, None, IfSome};
ghost use Rattle.link_handshake.specs.Shakes.{silent, answers, shake, then_answers};
ghost use Rattle.link_handshake.specs.Machines.{to_come_in, said, stands, over_after, over_in};

use crate::answer::{LineAnswer, Phase, answer};
use crate::line::OpenLine;
use std::marker::Model;

/// How many lines a client may send, its `BEGIN` among them.
const MAX_LINES: u8 = 16;

/// What the server replies to a line (D-Bus Specification, "Authentication Protocol").
#[derive(Clone, Copy, Debug, PartialEq, Eq)]
pub enum ShakeReply {
    /// The client is accepted, and learns the server's GUID.
    Ok,
    /// The client is asked for its data.
    Data,
    /// The client is rejected, and learns that EXTERNAL is the one mechanism.
    Rejected,
    /// The line was not understood, or may not come here.
    ErrorLine,
}

/// Why a handshake ends without messages.
#[derive(Clone, Copy, Debug, PartialEq, Eq)]
pub enum ShakeFault {
    /// A line has more than 512 bytes with its end.
    TooLong,
    /// The first byte is not 0, a line has no CR before its LF, or a line may not come here.
    BadLine,
    /// A byte comes behind the 16th line.
    TooMany,
}

/// What a byte of the client brings about.
#[derive(Clone, Copy, Debug, PartialEq, Eq)]
pub enum ShakeStep {
    /// Nothing yet.
    More,
    /// This is to be replied.
    Say(ShakeReply),
    /// The bytes behind this one are messages.
    Begun,
    /// The handshake has failed.
    Fault(ShakeFault),
}

/// How far a handshake has come.
#[derive(Clone, Copy, Debug, PartialEq, Eq)]
pub enum State {
    /// The byte 0 is awaited.
    Start,
    /// Lines are awaited, and so many may still come.
    Lines { phase: Phase, left: u8 },
    /// The messages have begun.
    Begun,
    /// There was a fault.
    Fault(ShakeFault),
}

/// The server's half of the authentication: it awaits byte 0 and then lines, and accepts the
/// client that names the uid of the door.
#[derive(Drop)]
pub struct Handshake {
    door: u32,
    state: State,
    line: OpenLine,
}

impl Model for Handshake {
    ghost use Rattle.link_handshake.specs.Machines.{Shaking};

    ghost Value = { Shaking };

    ghost view = { λ h. record { door = h.door; state = h.state; line = h.line } };
}

/// What a byte behind the byte 0 brings about.
#[derive(Clone, Copy)]
struct ByteEffect {
    /// How far the handshake has come then.
    state: State,
    /// The step that is answered.
    step: ShakeStep,
}

/// Where a handshake stands behind a line, and what is said there.
fn behind_line(answered: LineAnswer, left: u8) -> ByteEffect
    ensures rest { (door : ℕ) (rest : List ℕ) →
        then_answers (answers door left) rest answered ≡ said result.step (to_come_in door result.state [] rest) }
    ensures now { (door : ℕ) → to_come_in door result.state [] [] ≡ silent (stands result.step []) }
    ensures over { over_in result.state ≡ over_after result.step }
{
    match answered {
        LineAnswer::Says(reply, phase) => ByteEffect {
            state: State::Lines { phase, left },
            step: ShakeStep::Say(reply),
        },
        LineAnswer::Begins => ByteEffect {
            state: State::Begun,
            step: ShakeStep::Begun,
        },
        LineAnswer::Bad => ByteEffect {
            state: State::Fault(ShakeFault::BadLine),
            step: ShakeStep::Fault(ShakeFault::BadLine),
        },
    }
}

/// Takes a byte behind the byte 0.
fn line_byte(door: u32, phase: Phase, left: u8, line: &mut OpenLine, byte: u8) -> ByteEffect
    ensures step { (more : List ℕ) → answers door left phase (line.old ++ byte ∷ more)
        ≡ said result.step (to_come_in door result.state line.new more) }
    ensures now { to_come_in door result.state line.new [] ≡ silent (stands result.step []) }
    ensures over { over_in result.state ≡ over_after result.step }
{
    if left == 0 {
        let fault = ShakeFault::TooMany;
        return ByteEffect {
            state: State::Fault(fault),
            step: ShakeStep::Fault(fault),
        };
    }
    if line.is_full() {
        let fault = ShakeFault::TooLong;
        return ByteEffect {
            state: State::Fault(fault),
            step: ShakeStep::Fault(fault),
        };
    }
    if byte != b'\n' {
        line.push(byte);
        return ByteEffect {
            state: State::Lines { phase, left },
            step: ShakeStep::More,
        };
    }
    let answered = answer(door, phase, line.bytes());
    line.clear();
    behind_line(answered, left - 1)
}

impl Handshake {
    ghost use Rattle.link_handshake.specs.Machines.{to_come, over};

    /// The handshake at a door of that uid, to which nothing has come.
    pub fn new(door: u32) -> Handshake
        ensures all { (bytes : List ℕ) → to_come result bytes ≡ shake door bytes }
        ensures over { over result ≡ None }
    {
        Handshake {
            door,
            state: State::Start,
            line: OpenLine::new(),
        }
    }

    /// Takes the client's next byte.
    ///
    /// `Begun` comes at the LF of `BEGIN`. After `Begun` and `Fault` it answers the same again.
    pub fn feed(&mut self, byte: u8) -> ShakeStep
        // A byte brings about what the whole list of bytes is answered.
        ensures step { over self.old ≡ None → (more : List ℕ) →
            to_come self.old (byte ∷ more) ≡ said result (to_come self.new more) }
        // Nothing is held back.
        ensures now { to_come self.new [] ≡ silent (stands result []) }
        ensures over { over self.new ≡ over_after result }
        ensures again { IfSome (over self.old) (λ last. (result ≡ last) × (self.new ≡ self.old)) }
    {
        match self.state {
            State::Start if byte == 0 => {
                self.state = State::Lines {
                    phase: Phase::Waiting,
                    left: MAX_LINES,
                };
                self.line.clear();
                ShakeStep::More
            }
            State::Start => {
                self.state = State::Fault(ShakeFault::BadLine);
                ShakeStep::Fault(ShakeFault::BadLine)
            }
            State::Lines { phase, left } => {
                let effect = line_byte(self.door, phase, left, &mut self.line, byte);
                self.state = effect.state;
                effect.step
            }
            State::Begun => ShakeStep::Begun,
            State::Fault(fault) => ShakeStep::Fault(fault),
        }
    }
}
