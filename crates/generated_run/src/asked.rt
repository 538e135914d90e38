// What an agent is asked.
ghost use Rattle.std.specs.Prelude.{◌≡◌, ◌+◌, IfOk};
ghost use Rattle.generated_run.specs.Run.{asked, asked_in, first_user, user_in};

use authority_model::{Cookie, Message, Output};
use pk_types::{Identity, NoMemory};

/// What a Begin asks of an agent.
#[derive(Clone, Copy)]
pub struct Asked {
    /// The serial with which it was sent.
    pub serial: u32,
    pub cookie: Cookie,
    /// The first user that may answer.
    pub uid: u32,
}

fn user_in(identity: Identity) -> Option<u32>
    ensures user { result ≡ user_in identity }
{
    match identity {
        Identity::User(uid) => Some(uid),
        Identity::Group(_) => None,
    }
}

/// The first identity, where it is a user.
fn first_user(identities: &[Identity]) -> Option<u32>
    ensures user { result ≡ first_user identities.now }
{
    match identities.get(0) {
        Some(identity) => user_in(*identity),
        None => None,
    }
}

/// What a message with this serial asks of an agent.
fn asked_by(serial: u32, message: &Message) -> Option<Asked>
    ensures asked { result ≡ asked serial message.now }
{
    match message {
        Message::Begin {
            cookie,
            identities,
            ..
        } => match first_user(identities.as_slice()) {
            Some(uid) => Some(Asked {
                serial,
                cookie: *cookie,
                uid,
            }),
            None => None,
        },
        _ => None,
    }
}

/// The serial after this one.
pub fn after(serial: u32) -> Result<u32, NoMemory>
    ensures next { IfOk result (λ next. next ≡ serial + 1) }
{
    // No connection is sent that many outputs.
    serial.checked_add(1).ok_or(NoMemory)
}

/// What outputs first ask of a connection, where the next one to it has this serial.
pub fn asked_in(caller: u32, serial: u32, outputs: &[Output]) -> Result<Option<Asked>, NoMemory>
    ensures asked { IfOk result (λ found. found ≡ asked_in caller serial outputs.now) }
{
    let mut serial = serial;
    let mut rest = outputs;
    while let [output, behind @ ..] = rest {
        if output.to == caller {
            if let Some(found) = asked_by(serial, &output.message) {
                return Ok(Some(found));
            }
            serial = after(serial)?;
        }
        rest = behind;
    }
    Ok(None)
}
