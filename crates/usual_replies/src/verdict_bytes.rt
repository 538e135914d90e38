// The reply to a check, put straight as bytes, without its values.
ghost use Rattle.std.specs.Prelude.{◌≡◌, ◌+◌, ◌<◌, ◌≤◌, ◌++◌, ◌∷◌, ℕ, Bool, List, true, false, None, [], length, is_some, if◌then◌else◌, IfOk, OnOk};
ghost use Rattle.std.specs.Int.{w32};
ghost use Rattle.dbus_values.specs.Basics.{gap};
ghost use Rattle.dbus_values.specs.Form.{message_bytes};
ghost use Rattle.dbus_values.specs.Trees.{bytes_of, marshalled, padding};
ghost use Rattle.pk_types.specs.Text.{text_fault_of};
ghost use Rattle.authority_model.specs.declared.load.Loaded.{Loaded};
ghost use Rattle.authority_model.specs.declared.message.Answer.TheVariants as answer;
ghost use Rattle.authority_model.specs.Details.{detail, dismissed_detail, keep_detail, decided_by, details_of};
ghost use Rattle.authority_model.specs.Reasons.{reason_text as text_of_reason};
ghost use Rattle.authority_messages.specs.Values.{string, authorization_result};
ghost use Rattle.authority_messages.specs.Outgoing.{return_to, under};
ghost use Rattle.authority_messages.specs.Messages.{reply};
ghost use Rattle.usual_replies.specs.Straight.{details_bytes, details_end, first_bytes, truth_bytes};

use authority_messages::texts::reason_text;
use authority_model::{Reason, Verdict};
use pk_types::NoMemory;
use std::alloc::{AllocError, Global};

/// The place of the body in the message.
const BODY: usize = 40;

/// The place of the first detail in the message.
const DETAILS: usize = 56;

/// The key of the detail that tells the reason.
const DECIDED_BY: &str = "polkit.decided-by";

/// The key of the detail that tells that a challenge would make a temporary authorization.
const RETAINS: &str = "polkit.retains_authorization_after_challenge";

/// Bytes.
fn put_bytes(out: &mut Vec<u8>, bytes: &[u8]) -> Result<(), AllocError>
    ensures exact { OnOk result (out.new.items ≡ out.old.items ++ bytes.now) }
{
    out.extend_from_slice(bytes)
}

/// Makes room for so many bytes more.
fn make_room(out: &mut Vec<u8>, more: usize) -> Result<(), AllocError>
    ensures same { OnOk result (out.new.items ≡ out.old.items) }
{
    out.reserve(more)
}

/// A number of four bytes.
fn put_u32(out: &mut Vec<u8>, n: u32) -> Result<(), AllocError>
    ensures exact { OnOk result (out.new.items ≡ out.old.items ++ bytes_of false w32 n) }
{
    out.extend_from_slice(&n.to_le_bytes())
}

/// A BOOLEAN.
fn put_truth(out: &mut Vec<u8>, truth: bool) -> Result<(), AllocError>
    ensures exact { OnOk result (out.new.items ≡ out.old.items ++ bytes_of false w32 (if truth then 1 else 0)) }
{
    put_u32(out, u32::from(truth))
}

/// So many bytes 0.
#[tactic(auto, using(crate::proofs::Straight::zeros_taken))]
fn put_zeros(out: &mut Vec<u8>, n: usize) -> Result<(), AllocError>
    requires few { n < 8 }
    ensures exact { OnOk result (out.new.items ≡ out.old.items ++ padding n) }
{
    let zeros: [u8; 7] = [0, 0, 0, 0, 0, 0, 0];
    out.extend_from_slice(&zeros[..n])
}

/// How far it is to the next multiple of 4.
fn gap_to_4(at: usize) -> usize
    ensures exact { result ≡ gap 4 at }
    ensures few { result < 4 }
{
    (4 - at % 4) % 4
}

/// How far it is to the next multiple of 8.
fn gap_to_8(at: usize) -> usize
    ensures exact { result ≡ gap 8 at }
    ensures few { result < 8 }
{
    (8 - at % 8) % 8
}

/// Where a text ends that stands at this place of its message.
#[tactic(auto, using(crate::proofs::Straight::text_end_is))]
fn text_end(at: usize, text: &[u8]) -> usize
    requires place { at ≤ 1000000 }
    requires short { length text.now ≤ 65535 }
    ensures exact { result ≡ at + length (marshalled false at (string text.now)) }
    ensures few { result ≤ at + length text.now + 8 }
{
    at + gap_to_4(at) + 4 + text.len() + 1
}

/// A text at this place of its message, with the padding before it.
fn put_text(out: &mut Vec<u8>, at: usize, text: &[u8]) -> Result<(), AllocError>
    requires short { length text.now ≤ 65535 }
    ensures exact { OnOk result (out.new.items ≡ out.old.items ++ marshalled false at (string text.now)) }
{
    put_zeros(out, gap_to_4(at))?;
    put_u32(out, text.len() as u32)?;
    out.extend_from_slice(text)?;
    out.extend_from_slice(&[0])
}

/// Where a detail ends that stands at this place of its message.
#[tactic(auto, using(crate::proofs::Straight::detail_end_is))]
fn detail_end(at: usize, key: &str, value: &[u8]) -> usize
    requires place { at ≤ 100000 }
    requires key { length key.now ≤ 64 }
    requires value { length value.now ≤ 65535 }
    ensures exact { result ≡ details_end at (detail key.now value.now) }
    ensures few { result ≤ at + length value.now + 87 }
{
    let start = at + gap_to_8(at);
    text_end(text_end(start, key.as_bytes()), value)
}

/// A detail at this place of its message.
fn put_detail(out: &mut Vec<u8>, at: usize, key: &str, value: &[u8]) -> Result<(), AllocError>
    requires place { at ≤ 100000 }
    requires key { length key.now ≤ 64 }
    requires value { length value.now ≤ 65535 }
    ensures exact { OnOk result (out.new.items ≡ out.old.items ++ details_bytes at (detail key.now value.now)) }
{
    let zeros = gap_to_8(at);
    put_zeros(out, zeros)?;
    put_text(out, at + zeros, key.as_bytes())?;
    put_text(out, text_end(at + zeros, key.as_bytes()), value)
}

/// Where the detail ends that a challenge would make a temporary authorization.
fn keep_end(at: usize, keep: bool) -> usize
    requires place { at ≤ 100000 }
    ensures exact { result ≡ details_end at (keep_detail keep) }
    ensures few { result ≤ at + 88 }
{
    if keep {
        detail_end(at, RETAINS, b"1")
    } else {
        at
    }
}

/// That a challenge would make a temporary authorization.
fn put_keep(out: &mut Vec<u8>, at: usize, keep: bool) -> Result<(), AllocError>
    requires place { at ≤ 100000 }
    ensures exact { OnOk result (out.new.items ≡ out.old.items ++ details_bytes at (keep_detail keep)) }
{
    if keep {
        put_detail(out, at, RETAINS, b"1")
    } else {
        Ok(())
    }
}

/// The first bytes of the return of a check, up to its body, which has so many bytes.
fn put_first(out: &mut Vec<u8>, serial: u32, answered: u32, body: u32) -> Result<(), AllocError>
    ensures exact { OnOk result (out.new.items ≡ out.old.items ++ first_bytes serial answered body) }
{
    put_bytes(out, &[b'l', 2, 1, 1])?;
    put_u32(out, body)?;
    put_u32(out, serial)?;
    put_bytes(out, &[23, 0, 0, 0, 5, 1, b'u', 0])?;
    put_u32(out, answered)?;
    put_bytes(
        out,
        &[
            8, 1, b'g', 0, 9, b'(', b'b', b'b', b'a', b'{', b's', b's', b'}', b')', 0, 0,
        ],
    )
}

/// The two truths of a verdict, and how many bytes its details have.
fn put_truths(out: &mut Vec<u8>, yes: bool, challenge: bool, size: u32) -> Result<(), AllocError>
    ensures exact { OnOk result (out.new.items ≡ out.old.items ++ truth_bytes yes challenge size) }
{
    put_truth(out, yes)?;
    put_truth(out, challenge)?;
    put_u32(out, size)?;
    put_u32(out, 0)
}

/// The return of a check, where its verdict has no details but its reason, of this text, and that a
/// challenge would make a temporary authorization.
fn put_verdict(
    out: &mut Vec<u8>,
    serial: u32,
    answered: u32,
    verdict: &Verdict,
    reason: &[u8],
) -> Result<(), AllocError>
    requires short { length reason.now ≤ 65535 }
    requires spoken { is_some (text_fault_of (text_of_reason verdict.now.reason)) ≡ false }
    requires details { details_of verdict.now ≡ detail DECIDED_BY.now reason.now ++ keep_detail verdict.now.keep }
    ensures exact { OnOk result ((loads : List Loaded) → out.new.items ≡ out.old.items ++ message_bytes false (under serial (reply loads answered (answer.Verdict verdict.now)))) }
{
    let middle = detail_end(DETAILS, DECIDED_BY, reason);
    let end = keep_end(middle, verdict.keep);
    make_room(out, end)?;
    put_first(out, serial, answered, (end - BODY) as u32)?;
    put_truths(out, verdict.yes, verdict.challenge, (end - DETAILS) as u32)?;
    put_detail(out, DETAILS, DECIDED_BY, reason)?;
    put_keep(out, middle, verdict.keep)
}

/// Whether a verdict has no details but its reason, and that a challenge would make a temporary
/// authorization.
fn has_few_details(verdict: &Verdict) -> bool
    ensures few { result ≡ true → details_of verdict.now ≡ decided_by verdict.now.reason ++ keep_detail verdict.now.keep }
{
    let dismissed = matches!(&verdict.reason, Reason::Dismissed);
    verdict.pairs.is_empty() && verdict.grant.is_none() && !dismissed
}

/// Puts the reply to a check at the end of the bytes, if its verdict has few details. The answer is
/// whether it did.
pub fn put_usual_verdict(
    alloc: Global,
    serial: u32,
    answered: u32,
    verdict: &Verdict,
    out: &mut Vec<u8>,
) -> Result<bool, NoMemory>
    ensures put { IfOk result (λ did. did ≡ true → (loads : List Loaded) → out.new.items ≡ out.old.items ++ message_bytes false (under serial (reply loads answered (answer.Verdict verdict.now)))) }
    ensures kept { IfOk result (λ did. did ≡ false → out.new.items ≡ out.old.items) }
{
    if !has_few_details(verdict) {
        return Ok(false);
    }
    let Some(reason) = reason_text(alloc, &verdict.reason)? else {
        return Ok(false);
    };
    put_verdict(out, serial, answered, verdict, reason.bytes())?;
    Ok(true)
}
