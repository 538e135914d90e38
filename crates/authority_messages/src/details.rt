// The details of a verdict.
ghost use Rattle.std.specs.Prelude.{◌≡◌, ◌++◌, None, Some, if◌then◌else◌, is_some, IsTrue, IfOk, OnOk};
ghost use Rattle.pk_types.specs.Text.{text_fault_of};
ghost use Rattle.authority_model.specs.Details.{detail, dismissed_detail, keep_detail, grant_detail, details_of};
ghost use Rattle.authority_model.specs.Reasons.{reason_text as text_of_reason};
ghost use Rattle.authority_messages.specs.Plain.{is_plain};

use crate::texts::{grant_text, plain, reason_text};
use authority_model::{Reason, Verdict};
use pk_types::{List, NoMemory, Pair, PairList, Text};
use std::alloc::Global;

/// Puts a detail at the end.
fn add_detail(alloc: Global, details: &mut PairList, key: &str, value: Text) -> Result<(), NoMemory>
    requires plain { IsTrue (is_plain key.now) }
    ensures ok { OnOk result (details.new ≡ details.old ++ detail key.now value) }
{
    let key = plain(alloc, key)?;
    details.try_push(Pair { key, value })
}

/// That the user dismissed the dialogue.
fn add_dismissed(alloc: Global, details: &mut PairList, reason: &Reason) -> Result<(), NoMemory>
    ensures ok { OnOk result (details.new ≡ details.old ++ dismissed_detail reason.now) }
{
    match reason {
        Reason::Dismissed => {
            let value = plain(alloc, "true")?;
            add_detail(alloc, details, "polkit.dismissed", value)
        }
        Reason::Root
        | Reason::Default(_)
        | Reason::Entry(_)
        | Reason::Grant(_)
        | Reason::Imply(_)
        | Reason::Challenge
        | Reason::AgentGone
        | Reason::SubjectGone
        | Reason::ActionGone
        | Reason::IdentityGone => Ok(()),
    }
}

/// That a challenge would make a temporary authorization.
fn add_keep(alloc: Global, details: &mut PairList, keep: bool) -> Result<(), NoMemory>
    ensures ok { OnOk result (details.new ≡ details.old ++ keep_detail keep) }
{
    if keep {
        let value = plain(alloc, "1")?;
        add_detail(
            alloc,
            details,
            "polkit.retains_authorization_after_challenge",
            value,
        )
    } else {
        Ok(())
    }
}

/// The temporary authorization that was made.
fn add_grant(alloc: Global, details: &mut PairList, grant: Option<u64>) -> Result<(), NoMemory>
    ensures ok { OnOk result (details.new ≡ details.old ++ grant_detail grant) }
{
    match grant {
        None => Ok(()),
        Some(id) => {
            let value = grant_text(alloc, id)?;
            add_detail(alloc, details, "polkit.temporary_authorization_id", value)
        }
    }
}

/// Pairs, as they stand.
fn add_pairs(details: &mut PairList, pairs: &[Pair]) -> Result<(), NoMemory>
    ensures ok { OnOk result (details.new ≡ details.old ++ pairs.now) }
{
    for one in pairs {
        let copy = one.try_copy()?;
        details.try_push(copy)?;
    }
    Ok(())
}

/// What stands behind the reason.
fn add_rest(alloc: Global, details: &mut PairList, verdict: &Verdict) -> Result<(), NoMemory>
    ensures ok { OnOk result (details.new ≡ details.old ++ dismissed_detail verdict.now.reason ++ keep_detail verdict.now.keep ++ grant_detail verdict.now.grant ++ verdict.now.pairs) }
{
    add_dismissed(alloc, details, &verdict.reason)?;
    add_keep(alloc, details, verdict.keep)?;
    add_grant(alloc, details, verdict.grant)?;
    add_pairs(details, verdict.pairs.as_slice())
}

/// The details of a verdict, and `None` exactly where the text of its reason is longer than a text
/// may be.
pub fn details(alloc: Global, verdict: &Verdict) -> Result<Option<PairList>, NoMemory>
    ensures details { IfOk result (λ found. found ≡ (if is_some (text_fault_of (text_of_reason verdict.now.reason)) then None else Some (details_of verdict.now))) }
{
    let Some(reason) = reason_text(alloc, &verdict.reason)? else {
        return Ok(None);
    };
    let mut details = List::new(alloc);
    add_detail(alloc, &mut details, "polkit.decided-by", reason)?;
    add_rest(alloc, &mut details, verdict)?;
    Ok(Some(details))
}
