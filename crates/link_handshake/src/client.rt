// The client's half.
ghost use Rattle.std.specs.Prelude.{◌≡◌, ◌==◌, ℕ, List, [], ◌∷◌, ◌++◌, None, IfOk, IfSome};
ghost use Rattle.std.specs.List.{list_all};
ghost use Rattle.std.specs.Char.{is_ascii_hexdigit};
ghost use Rattle.link_handshake.specs.Clients.{first_bytes, is_ok_line, awaited, client_to_come_in, client_stands, client_over_in, client_over_after};

use crate::digits::write_uid;
use crate::line::OpenLine;
use crate::server::ShakeFault;
use pk_types::{ByteList, NoMemory};
use std::alloc::Global;
use std::marker::Model;

/// What a byte of the server brings about.
#[derive(Clone, Copy, Debug, PartialEq, Eq)]
pub enum ClientStep {
    /// Nothing yet.
    More,
    /// The client is accepted, and is to send `BEGIN`.
    SendBegin,
    /// The handshake has failed.
    Fault(ShakeFault),
}

/// How far the client has come.
#[derive(Clone, Copy, Debug, PartialEq, Eq)]
pub enum ClientState {
    /// The server's line is awaited.
    Awaiting,
    /// The client was accepted.
    Accepted,
    /// There was a fault.
    Fault(ShakeFault),
}

/// The client's half of the authentication: it has sent `client_first`, and awaits the line that
/// accepts it.
#[derive(Drop)]
pub struct ClientShake {
    state: ClientState,
    line: OpenLine,
}

impl Model for ClientShake {
    ghost use Rattle.link_handshake.specs.Clients.{ClientShaking};

    ghost Value = { ClientShaking };

    ghost view = { λ c. record { state = c.state; line = c.line } };
}

/// The bytes that a client of that uid sends first: byte 0 and the line `AUTH EXTERNAL`.
pub fn client_first(alloc: Global, uid: u32) -> Result<ByteList, NoMemory>
    ensures bytes { IfOk result (λ bytes. bytes ≡ first_bytes uid) }
{
    let mut digits = [0; 20];
    let len = write_uid(uid, &mut digits);
    let mut bytes = Vec::new(alloc);
    bytes.push(0)?;
    bytes.extend_from_slice(b"AUTH EXTERNAL ")?;
    bytes.extend_from_slice(&digits[..len])?;
    bytes.extend_from_slice(b"\r\n")?;
    Ok(ByteList::from_vec(bytes))
}

fn are_hex_digits(digits: &[u8]) -> bool
    ensures are { result ≡ list_all is_ascii_hexdigit digits.now }
{
    digits.iter().all(|digit| digit.is_ascii_hexdigit())
}

/// Whether a line without its LF accepts the client.
fn is_ok(line: &[u8]) -> bool
    ensures is { result ≡ is_ok_line line.now }
{
    if line.len() != 36 {
        return false;
    }
    let (word, rest) = line.split_at(3);
    let (digits, _) = rest.split_at(32);
    let (_, end) = line.split_at(35);
    word == b"OK ".as_slice() && are_hex_digits(digits) && end == b"\r".as_slice()
}

/// What a byte of the awaited line brings about.
#[derive(Clone, Copy)]
struct ClientEffect {
    /// How far the client has come then.
    state: ClientState,
    /// The step that is answered.
    step: ClientStep,
}

/// Takes a byte of the line that is awaited.
fn reply_byte(line: &mut OpenLine, byte: u8) -> ClientEffect
    ensures step { (more : List ℕ) →
        awaited (line.old ++ byte ∷ more) ≡ client_to_come_in result.state line.new more }
    ensures now { client_to_come_in result.state line.new [] ≡ client_stands result.step }
    ensures over { client_over_in result.state ≡ client_over_after result.step }
{
    if line.is_full() {
        let fault = ShakeFault::TooLong;
        return ClientEffect {
            state: ClientState::Fault(fault),
            step: ClientStep::Fault(fault),
        };
    }
    if byte != b'\n' {
        line.push(byte);
        return ClientEffect {
            state: ClientState::Awaiting,
            step: ClientStep::More,
        };
    }
    if is_ok(line.bytes()) {
        return ClientEffect {
            state: ClientState::Accepted,
            step: ClientStep::SendBegin,
        };
    }
    let fault = ShakeFault::BadLine;
    ClientEffect {
        state: ClientState::Fault(fault),
        step: ClientStep::Fault(fault),
    }
}

impl ClientShake {
    ghost use Rattle.link_handshake.specs.Clients.{client_to_come, client_over};

    /// The client to which nothing has come.
    pub fn new() -> ClientShake
        ensures all { (bytes : List ℕ) → client_to_come result bytes ≡ awaited bytes }
        ensures over { client_over result ≡ None }
    {
        ClientShake {
            state: ClientState::Awaiting,
            line: OpenLine::new(),
        }
    }

    /// Takes the server's next byte.
    ///
    /// After `SendBegin` and `Fault` it answers the same again.
    pub fn feed(&mut self, byte: u8) -> ClientStep
        ensures step { client_over self.old ≡ None → (more : List ℕ) →
            client_to_come self.old (byte ∷ more) ≡ client_to_come self.new more }
        ensures now { client_to_come self.new [] ≡ client_stands result }
        ensures over { client_over self.new ≡ client_over_after result }
        ensures again { IfSome (client_over self.old)
            (λ last. (result ≡ last) × (self.new ≡ self.old)) }
    {
        match self.state {
            ClientState::Awaiting => {
                let effect = reply_byte(&mut self.line, byte);
                self.state = effect.state;
                effect.step
            }
            ClientState::Accepted => ClientStep::SendBegin,
            ClientState::Fault(fault) => ClientStep::Fault(fault),
        }
    }
}
