// The subjects and identities of lines.
ghost use Rattle.std.specs.Prelude.{◌≡◌, ◌^◌, ◌<◌, [], ◌∷◌, map, IfOk};
ghost use Rattle.std.specs.Option.{option_map};
ghost use Rattle.authority_model.specs.Words.{after_front};
ghost use Rattle.scenario_text.specs.Faults.{Gives};
ghost use Rattle.scenario_text.specs.Subjects.{subject_of_parts, subject_in, identity_of_parts, identity_in};

use crate::fault::LineKind;
use crate::words::{caller_word, number_32, number_64, text_word};
use authority_model::bus_name;
use pk_types::{Identity, NoMemory, Subject, Text, pieces};
use std::alloc::Global;

/// What comes after a prefix, and `None` exactly where the word does not have this prefix.
pub fn behind<'a>(word: &'a [u8], front: &[u8]) -> Option<&'a [u8]>
    ensures rest { option_map (λ rest. rest.now) result ≡ after_front front.now word.now }
{
    let mut rest = word;
    for wanted in front {
        let [byte, after @ ..] = rest else {
            return None;
        };
        if byte != wanted {
            return None;
        }
        rest = after;
    }
    Some(rest)
}

fn bus(alloc: Global, kind: &[u8], caller: &[u8]) -> Result<Subject, LineKind>
    ensures value { Gives result (subject_of_parts (kind.now ∷ caller.now ∷ [])) }
{
    if kind != b"bus".as_slice() {
        return Err(LineKind::Value);
    }
    let caller = caller_word(caller)?;
    let name = bus_name(alloc, caller)?;
    Ok(Subject::BusName { name })
}

fn process(kind: &[u8], pid: &[u8], start: &[u8]) -> Result<Subject, LineKind>
    ensures value { Gives result (subject_of_parts (kind.now ∷ pid.now ∷ start.now ∷ [])) }
{
    if kind != b"process".as_slice() {
        return Err(LineKind::Value);
    }
    let pid = number_32(pid)?;
    let start = number_64(start)?;
    Ok(Subject::Process { pid, start })
}

fn bus_or_process(alloc: Global, parts: &[&[u8]]) -> Result<Subject, LineKind>
    ensures value { Gives result (subject_of_parts (map (λ part. part.now) parts.now)) }
{
    match parts {
        [kind, caller] => bus(alloc, kind, caller),
        [kind, pid, start] => process(kind, pid, start),
        _ => Err(LineKind::Value),
    }
}

/// A subject: `process:PID:START`, `session:ID` or `bus:N`.
#[tactic(auto, unfolding(crate::specs::Subjects::subject_in))]
pub fn subject_word(alloc: Global, word: &[u8]) -> Result<Subject, LineKind>
    ensures value { Gives result (subject_in word.now) }
{
    match behind(word, b"session:".as_slice()) {
        Some(id) => {
            let id = text_word(alloc, id)?;
            Ok(Subject::Session { id })
        }
        None => {
            let parts = pieces(alloc, word, b':')?;
            bus_or_process(alloc, &parts)
        }
    }
}

fn user(parts: &[&[u8]]) -> Result<Identity, LineKind>
    ensures value { Gives result (identity_of_parts (map (λ part. part.now) parts.now)) }
{
    match parts {
        [b"user", uid] => {
            let uid = number_32(uid)?;
            Ok(Identity::User(uid))
        }
        _ => Err(LineKind::Value),
    }
}

/// An identity: `user:UID`.
#[tactic(auto, unfolding(crate::specs::Subjects::identity_in))]
pub fn identity_word(alloc: Global, word: &[u8]) -> Result<Identity, LineKind>
    ensures value { Gives result (identity_in word.now) }
{
    let parts = pieces(alloc, word, b':')?;
    user(&parts)
}
