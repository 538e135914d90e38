// The arguments of a check, in their usual form.
ghost use Rattle.std.specs.Prelude.{◌≡◌, ◌<◌, ◌^◌, ◌≤◌, ◌++◌, ◌∷◌, ◌-◌, [], IfOk, IfSome, length, false};
ghost use Rattle.dbus_values.specs.Trees.{marshalled, all_marshalled};
ghost use Rattle.authority_messages.specs.Values.{string, pairs, uint32, row};
ghost use Rattle.usual_calls.specs.Forms.{IsBody};

use crate::fronts::{gap_to_4, gap_to_8, text_from, u32_from, zeros_from};
use crate::subjects::{subject_from, text_of};
use authority_model::Call;
use pk_types::{List, NoMemory};
use std::alloc::Global;

/// What follows an empty dictionary at this place.
#[tactic(auto, using(crate::proofs::Standing::none_front))]
fn no_details_from(bytes: &[u8], at: usize) -> Option<&[u8]>
    requires place { at ≤ 2000000 }
    ensures none { IfSome result (λ rest. bytes.now ≡ marshalled false at (pairs []) ++ rest.now) }
{
    let start = at + gap_to_4(at);
    let bytes = zeros_from(bytes, gap_to_4(at))?;
    let (size, bytes) = u32_from(bytes)?;
    if size != 0 {
        return None;
    }
    zeros_from(bytes, gap_to_8(start + 4))
}

/// A number of four bytes at this place, with the padding before it, and what follows it.
#[tactic(auto, using(crate::proofs::Standing::number_front))]
fn number_from(bytes: &[u8], at: usize) -> Option<(u32, &[u8])>
    ensures number { IfSome result (λ (n, rest). bytes.now ≡ marshalled false at (uint32 n) ++ rest.now) }
    ensures small { IfSome result (λ (n, _). n < 2 ^ 32) }
{
    let bytes = zeros_from(bytes, gap_to_4(at))?;
    u32_from(bytes)
}

/// What follows the subject: the action, the flags and the cancellation id, where there are no
/// details.
#[tactic(auto, using(crate::proofs::Standing::asked_front))]
fn asked_from(at: usize, rest: &[u8]) -> Option<(&[u8], u32, &[u8])>
    requires place { at ≤ 1000000 }
    requires short { length rest.now ≤ 1000000 }
    ensures asked { IfSome result (λ (action, flags, cancel). rest.now ≡ all_marshalled false at (row (string action.now ∷ pairs [] ∷ uint32 flags ∷ string cancel.now ∷ []))) }
    ensures flags { IfSome result (λ (_, flags, _). flags < 2 ^ 32) }
{
    let whole = at + rest.len();
    let (action, rest) = text_from(rest, whole - rest.len())?;
    let rest = no_details_from(rest, whole - rest.len())?;
    let (flags, rest) = number_from(rest, whole - rest.len())?;
    let (cancel, rest) = text_from(rest, whole - rest.len())?;
    if rest.is_empty() {
        Some((action, flags, cancel))
    } else {
        None
    }
}

/// The check that the arguments ask, where they have their usual form.
#[tactic(auto, using(crate::proofs::Forms::is_body, crate::proofs::Forms::rest_shorter))]
pub fn check_in(alloc: Global, body: &[u8]) -> Result<Option<Call>, NoMemory>
    requires short { length body.now ≤ 1000000 }
    ensures check { IfOk result (λ found. IfSome found (λ call. IsBody call body.now)) }
{
    let Some((subject, rest)) = subject_from(alloc, body)? else {
        return Ok(None);
    };
    let Some((action, flags, cancel)) = asked_from(body.len() - rest.len(), rest) else {
        return Ok(None);
    };
    let Some(action) = text_of(alloc, action)? else {
        return Ok(None);
    };
    let Some(cancel) = text_of(alloc, cancel)? else {
        return Ok(None);
    };
    Ok(Some(Call::Check {
        subject,
        action,
        details: List::new(alloc),
        flags,
        cancel,
    }))
}
