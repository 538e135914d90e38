// The words of answers: verdicts with their reasons, and errors.
ghost use Rattle.std.specs.Prelude.{◌≡◌, ◌++◌, string_bytes, OnOk};
ghost use Rattle.authority_model.specs.Reasons.{reason_text};
ghost use Rattle.scenario_text.specs.Escapes.{escaped};
ghost use Rattle.scenario_text.specs.Answers.{verdict_word, keep_text, made_text, verdict_text, cause_text};

use crate::escape::{push_escaped, push_pairs};
use authority_model::{ErrorCause, Reason, Verdict, push_grant_text};
use std::alloc::{AllocError, Global};

/// Adds the text of a reason, with each byte escaped that doesn't stand for itself.
fn push_reason(alloc: Global, text: &mut String, reason: &Reason) -> Result<(), AllocError>
    ensures ok { OnOk result (string_bytes text.new ≡ string_bytes text.old ++ escaped (reason_text reason.now)) }
{
    let reason = reason.text(alloc)?;
    push_escaped(text, reason.as_slice())
}

fn verdict_head(verdict: &Verdict) -> &'static str
    ensures word { result.now ≡ verdict_word verdict.now }
{
    if verdict.yes {
        "yes"
    } else if verdict.challenge {
        "challenge"
    } else {
        "no"
    }
}

fn keep_words(keep: bool) -> &'static str
    ensures text { result.now ≡ keep_text keep }
{
    if keep { " keep" } else { "" }
}

fn push_made(text: &mut String, grant: Option<u64>) -> Result<(), AllocError>
    ensures ok { OnOk result (string_bytes text.new ≡ string_bytes text.old ++ made_text grant) }
{
    match grant {
        None => Ok(()),
        Some(id) => {
            text.push_str(" grant=")?;
            push_grant_text(text, id)
        }
    }
}

/// Adds the words of a verdict: what it says, its reason, and what belongs to it.
pub fn push_verdict(alloc: Global, text: &mut String, verdict: &Verdict) -> Result<(), AllocError>
    ensures ok { OnOk result (string_bytes text.new ≡ string_bytes text.old ++ verdict_text verdict.now) }
{
    text.push_str(verdict_head(verdict))?;
    text.push_str(" ")?;
    push_reason(alloc, text, &verdict.reason)?;
    text.push_str(keep_words(verdict.keep))?;
    push_made(text, verdict.grant)?;
    push_pairs(text, verdict.pairs.as_slice())
}

/// Adds the last part of the error's name, and the word of the cause.
pub fn push_cause(text: &mut String, cause: ErrorCause) -> Result<(), AllocError>
    ensures ok { OnOk result (string_bytes text.new ≡ string_bytes text.old ++ cause_text cause) }
{
    text.push_str(cause.last_part())?;
    text.push_str(" ")?;
    text.push_str(cause.word())
}
