// Temporary authorizations that are listed and revoked.
ghost use Rattle.std.specs.Prelude.{◌≡◌, ◌++◌, false, List, OnOk, IfOk, flat_map, filter};
ghost use Rattle.std.specs.Option.{option_copied, option_map_or};
ghost use Rattle.authority_model.specs.declared.event.Call.{Call as TheCall};
ghost use Rattle.authority_model.specs.declared.journal.Item.{Item};
ghost use Rattle.entry_changes.specs.declared.change.GrantChange.{GrantChange as TheChange};
ghost use Rattle.entry_changes.specs.Changes.{revoking as revoking_of};
ghost use Rattle.authority_model.specs.Facts.{facts_seen};
ghost use Rattle.authority_model.specs.Grants.{made};
ghost use Rattle.authority_model.specs.Keys.{key_seen};
ghost use Rattle.authority_model.specs.Lists.{any_of};
ghost use Rattle.event_answers.specs.Asked.{AnswersCall, ChangesAsked, ChangesByCall, GivesAsked, IsAsked, IsOfCaller, TellsAsker, call_outputs, is_live_for as live_for, live_row, of_grants, unchanged};
ghost use Rattle.event_answers.specs.Told.{done_told, grants_told, live_among, revoke_all_told, revoke_one_told};

use crate::answered::{Answered, grants_changed};
use crate::asking::Asking;
use crate::permitting::permitted;
use crate::replies::tell_changed;
use authority_model::{Answer, ErrorCause, Facts, GrantRow, GrantRowList, KeyRef, OutputList};
use entry_changes::GrantChange;
use journal_view::JournalView;
use pk_types::{List, NoMemory, Subject, Text, TryCopy};
use std::alloc::Global;

/// Whether a temporary authorization is for a key and has not expired at a moment.
fn is_live_for(grant: &GrantRow, key: KeyRef, moment: u64) -> bool
    ensures live { result ≡ live_for (key_seen key.entry) moment grant.now }
{
    grant.key.is_same(key) && grant.is_live_at(moment)
}

/// Puts a copy of a temporary authorization, if there is one and it is live, at the end.
fn put_live(
    rows: &mut GrantRowList,
    grant: Option<&GrantRow>,
    key: KeyRef,
    moment: u64,
) -> Result<(), NoMemory>
    ensures put { OnOk result (rows.new ≡ rows.old ++ live_among (key_seen key.entry) moment (option_copied grant.entry)) }
{
    let Some(grant) = grant else {
        return Ok(());
    };
    if !is_live_for(grant, key, moment) {
        return Ok(());
    }
    rows.try_push(grant.try_copy()?)
}

/// Goes over all temporary authorizations for those of a key that are live at a moment.
fn live_rows<V: JournalView>(
    alloc: Global,
    view: &V,
    key: KeyRef,
    moment: u64,
) -> Result<GrantRowList, NoMemory>
    ensures rows { IfOk result (λ rows. rows ≡ flat_map (live_row (key_seen key.entry) moment) (V.seen view.now).grants) }
{
    let mut rows = List::new(alloc);
    for i in 0..view.grants_len() {
        put_live(&mut rows, view.nth_grant(i), key, moment)?;
    }
    Ok(rows)
}

/// The temporary authorizations of a key that are live at a moment, by rising number.
fn live_grants<V: JournalView>(
    alloc: Global,
    view: &V,
    key: KeyRef,
    moment: u64,
) -> Result<GrantRowList, NoMemory>
    ensures live { IfOk result (λ rows. rows ≡ filter (live_for (key_seen key.entry) moment) (V.seen view.now).grants) }
{
    live_rows(alloc, view, key, moment)
}

/// Whether a temporary authorization, if there is one, is for a key and live at a moment.
fn is_live(grant: Option<&GrantRow>, key: KeyRef, moment: u64) -> bool
    ensures live { result ≡ option_map_or (live_for (key_seen key.entry) moment) (option_copied grant.entry) false }
{
    match grant {
        Some(grant) => is_live_for(grant, key, moment),
        None => false,
    }
}

/// Whether a key has a temporary authorization that is live at a moment.
#[tactic(auto, using(crate::proofs::Walking::none_further, crate::proofs::Walking::some_there))]
fn has_live<V: JournalView>(view: &V, key: KeyRef, moment: u64) -> bool
    ensures has { result ≡ any_of (live_for (key_seen key.entry) moment) (V.seen view.now).grants }
{
    for i in 0..view.grants_len() {
        if is_live(view.nth_grant(i), key, moment) {
            return true;
        }
    }
    false
}

/// Answers EnumerateGrants for a subject of these facts.
fn enumerate_for<V: JournalView>(
    alloc: Global,
    view: &V,
    asking: Asking,
    facts: Facts,
) -> Result<Answered, NoMemory>
    ensures outputs { TellsAsker (V.seen view.now) asking result (grants_told asking (facts_seen facts.entry)) }
    ensures change { IfOk result (λ a. a.change ≡ unchanged) }
{
    let rows = live_grants(alloc, view, facts.key, asking.occasion.moment)?;
    asking.answer(alloc, Answer::Grants(rows))
}

/// Answers EnumerateGrants (EnumerateTemporaryAuthorizations in the reference manual).
pub fn enumerate_grants<V: JournalView>(
    alloc: Global,
    view: &V,
    asking: Asking,
    subject: &Subject,
) -> Result<Answered, NoMemory>
    ensures outputs { AnswersCall (V.seen view.now) asking (TheCall.EnumerateGrants subject.now) result }
    ensures change { IfOk result (λ a. a.change ≡ unchanged) }
{
    match permitted(view, asking, subject) {
        Ok(facts) => enumerate_for(alloc, view, asking, facts),
        Err(cause) => asking.refuse(alloc, cause),
    }
}

/// Says that the call was done, and tells each live connection if something changed.
fn done<V: JournalView>(
    alloc: Global,
    view: &V,
    asking: Asking,
    has_changed: bool,
) -> Result<OutputList, NoMemory>
    ensures done { GivesAsked (V.seen view.now) asking result (done_told asking has_changed) }
{
    let mut outputs = asking.to.reply(alloc, Answer::Done)?;
    if !has_changed {
        return Ok(outputs);
    }
    tell_changed(&mut outputs, view)?;
    Ok(outputs)
}

/// Answers RevokeAll for a subject of these facts.
fn revoke_all_for<V: JournalView>(
    alloc: Global,
    view: &V,
    asking: Asking,
    facts: Facts,
) -> Result<Answered, NoMemory>
    ensures outputs { TellsAsker (V.seen view.now) asking result (revoke_all_told asking (facts_seen facts.entry)) }
    ensures change { IfOk result (λ a. a.change ≡ of_grants (TheChange.EndKey (facts_seen facts.entry).key)) }
{
    let key = facts.key.try_own()?;
    let has_changed = has_live(view, facts.key, asking.occasion.moment);
    let outputs = done(alloc, view, asking, has_changed)?;
    Ok(Answered {
        outputs,
        change: grants_changed(GrantChange::EndKey(key)),
    })
}

/// Answers RevokeAll (RevokeTemporaryAuthorizations in the reference manual).
pub fn revoke_all<V: JournalView>(
    alloc: Global,
    view: &V,
    asking: Asking,
    subject: &Subject,
) -> Result<Answered, NoMemory>
    ensures outputs { AnswersCall (V.seen view.now) asking (TheCall.RevokeAll subject.now) result }
    ensures change { ChangesByCall (V.seen view.now) asking (TheCall.RevokeAll subject.now) result }
{
    match permitted(view, asking, subject) {
        Ok(facts) => revoke_all_for(alloc, view, asking, facts),
        Err(cause) => asking.refuse(alloc, cause),
    }
}

/// What a RevokeOne of a temporary authorization changes: it is revoked, expired or not, where the
/// caller may speak for its user.
fn revoking(asking: Asking, grant: &GrantRow) -> GrantChange
    ensures change { IsOfCaller asking result (λ past. revoking_of past asking.to.caller grant.now) }
{
    if asking.may_for(grant.key.uid()) {
        GrantChange::EndId(grant.id)
    } else {
        GrantChange::Keep
    }
}

/// Answers a RevokeOne of a temporary authorization that nothing ended. One that has expired is not
/// there for the caller.
fn revoke_outputs<V: JournalView>(
    alloc: Global,
    view: &V,
    asking: Asking,
    grant: &GrantRow,
) -> Result<OutputList, NoMemory>
    ensures outputs { GivesAsked (V.seen view.now) asking result (revoke_one_told asking grant.now) }
{
    if !grant.is_live_at(asking.occasion.moment) {
        return asking
            .to
            .reply(alloc, Answer::Refused(ErrorCause::NoSuchGrant));
    }
    if !asking.may_for(grant.key.uid()) {
        return asking
            .to
            .reply(alloc, Answer::Refused(ErrorCause::NotYours));
    }
    done(alloc, view, asking, true)
}

/// Revokes a temporary authorization that nothing ended, expired or not.
fn revoke<V: JournalView>(
    alloc: Global,
    view: &V,
    asking: Asking,
    grant: &GrantRow,
) -> Result<Answered, NoMemory>
    ensures outputs { TellsAsker (V.seen view.now) asking result (revoke_one_told asking grant.now) }
    ensures change { ChangesAsked (V.seen view.now) asking result (λ past. of_grants (revoking_of past asking.to.caller grant.now)) }
{
    let outputs = revoke_outputs(alloc, view, asking, grant)?;
    Ok(Answered {
        outputs,
        change: grants_changed(revoking(asking, grant)),
    })
}

/// Revokes the temporary authorization of a text. The numbers of all are below the one that was made
/// last and one more, so the text names at most one of them.
fn revoke_named<V: JournalView>(
    alloc: Global,
    view: &V,
    asking: Asking,
    id: &Text,
    _made: u64,
) -> Result<Answered, NoMemory>
    ensures outputs { (past : List Item) → IsAsked past (V.seen view.now) asking → _made ≡ made past
        → IfOk result (λ a. a.outputs ≡ call_outputs past asking (TheCall.RevokeOne id.now)) }
    ensures change { ChangesByCall (V.seen view.now) asking (TheCall.RevokeOne id.now) result }
{
    match view.grant_named(id) {
        Some(grant) => revoke(alloc, view, asking, grant),
        None => asking.refuse(alloc, ErrorCause::NoSuchGrant),
    }
}

/// Answers RevokeOne (RevokeTemporaryAuthorizationById in the reference manual).
pub fn revoke_one<V: JournalView>(
    alloc: Global,
    view: &V,
    asking: Asking,
    id: &Text,
) -> Result<Answered, NoMemory>
    ensures outputs { AnswersCall (V.seen view.now) asking (TheCall.RevokeOne id.now) result }
    ensures change { ChangesByCall (V.seen view.now) asking (TheCall.RevokeOne id.now) result }
{
    let made = view.counts().made;
    revoke_named(alloc, view, asking, id, made)
}
