// A line of a rule file.
ghost use Rattle.std.specs.Prelude.{◌≡◌, map};
ghost use Rattle.agent_rules.specs.Rules.{Reads, authenticated_in, handling_in, glob_in, rule_of_words, rule_in};

use crate::rules::RuleFault;
use pk_types::{Text, TextFault, number, pieces};
use std::alloc::Global;

/// How the agent handles a challenge.
#[derive(Clone, Copy, Debug, PartialEq, Eq)]
pub enum Handling {
    /// It tells the authority that this user was authenticated.
    Authenticate { uid: u32 },
    /// It tells the authority that the user dismissed the dialogue.
    Dismiss,
    /// It tells the authority that the dialogue failed.
    Fail,
}

/// A line of a rule file.
#[derive(Drop)]
pub struct Rule {
    /// The actions that the rule speaks of.
    pub glob: Text,
    /// How a challenge for such an action is handled.
    pub handling: Handling,
}

/// The user of a word `user:UID`.
fn authenticated(word: &[u8]) -> Option<Handling>
    ensures handling { result ≡ authenticated_in word.now }
{
    let [b'u', b's', b'e', b'r', b':', digits @ ..] = word else {
        return None;
    };
    let uid = number(digits)?;
    Some(Handling::Authenticate { uid })
}

/// What the second word of a line says.
fn handling_of(word: &[u8]) -> Option<Handling>
    ensures handling { result ≡ handling_in word.now }
{
    if word == b"dismiss".as_slice() {
        Some(Handling::Dismiss)
    } else if word == b"fail".as_slice() {
        Some(Handling::Fail)
    } else {
        authenticated(word)
    }
}

/// The glob that the first word of a line is.
fn glob(alloc: Global, word: &[u8]) -> Result<Text, RuleFault>
    ensures glob { Reads result (glob_in word.now) }
{
    if word.is_empty() {
        return Err(RuleFault::OutOfForm);
    }
    match Text::try_from_bytes(alloc, word) {
        Ok(glob) => Ok(glob),
        Err(TextFault::NoMemory) => Err(RuleFault::NoMemory),
        Err(_) => Err(RuleFault::OutOfForm),
    }
}

/// The rule of the words of a line.
fn rule_of_words(alloc: Global, words: &[&[u8]]) -> Result<Rule, RuleFault>
    ensures rule { Reads result (rule_of_words (map (λ word. word.now) words.now)) }
{
    match words {
        [first, second] => {
            let glob = glob(alloc, first)?;
            match handling_of(second) {
                Some(handling) => Ok(Rule { glob, handling }),
                None => Err(RuleFault::OutOfForm),
            }
        }
        [] | [_] => Err(RuleFault::OutOfForm),
        [_, _, _, ..] => Err(RuleFault::OutOfForm),
    }
}

/// The rule of a line.
pub fn rule_of(alloc: Global, line: &[u8]) -> Result<Rule, RuleFault>
    ensures rule { Reads result (rule_in line.now) }
{
    let words = pieces(alloc, line, b' ')?;
    rule_of_words(alloc, &words)
}
