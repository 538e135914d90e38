// Which outputs are a yes.
ghost use Rattle.std.specs.Prelude.{◌≡◌, ◌+◌, if◌then◌else◌, IfSome};
ghost use Rattle.journal_audit.specs.Fault.{is_yes, yes_among};

use authority_model::{Answer, Message, Output};

/// Whether a message is a yes.
fn is_yes(message: &Message) -> bool
    ensures yes { result ≡ is_yes message.now }
{
    match message {
        Message::Reply {
            answer: Answer::Verdict(verdict),
            ..
        } => verdict.yes,
        _ => false,
    }
}

/// One for a yes, and else nothing.
fn one_for_yes(output: &Output) -> u64
    ensures one { result ≡ (if is_yes output.now.message then 1 else 0) }
{
    if is_yes(&output.message) { 1 } else { 0 }
}

/// So many, and one for each of these outputs that is a yes, where 64 bits count them.
pub fn yes_after(before: u64, outputs: &[Output]) -> Option<u64>
    ensures count { IfSome result (λ n. n ≡ before + yes_among outputs.now) }
{
    let mut count = before;
    for output in outputs {
        count = count.checked_add(one_for_yes(output))?;
    }
    Some(count)
}
