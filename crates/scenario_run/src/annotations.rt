// The annotations of the draft's actions.
ghost use Rattle.std.specs.Prelude.{◌≡◌, Ok, IfOk, OnOk, IfErr, find, bytes_eq};
ghost use Rattle.std.specs.Option.{option_copied};
ghost use Rattle.authority_model.specs.Deciding.{imply_key};
ghost use Rattle.authority_model.specs.Trust.{owner_key};
ghost use Rattle.scenario_text.specs.Faults.{Gives, IsFaultOf};
ghost use Rattle.scenario_run.specs.Drafts.{put_action, annotated, put_annotated, implied_by, one_more_id, imply, own};

use crate::rows::put;
use crate::texts::owners;
use authority_model::{Action, Loaded};
use pk_types::{ActionId, NoMemory, Pair, Text, TextList, TryCopy};
use scenario_text::LineKind;
use std::alloc::Global;

/// Puts an action into the draft.
pub fn put_action(draft: &mut Loaded, action: Action) -> Result<(), LineKind>
    ensures ok { OnOk result (put_action draft.old action ≡ Ok draft.new) }
    ensures err { IfErr result (λ kind. IsFaultOf kind (put_action draft.old action)) }
{
    put(&mut draft.policy.actions, action)
}

/// The key of the annotation that has the ids of implied actions.
fn imply_key(alloc: Global) -> Result<Text, NoMemory>
    ensures key { IfOk result (λ key. key ≡ imply_key) }
{
    Text::of_known(alloc, b"org.freedesktop.policykit.imply".as_slice())
}

/// The key of the annotation that has the owners.
fn owner_key(alloc: Global) -> Result<Text, NoMemory>
    ensures key { IfOk result (λ key. key ≡ owner_key) }
{
    Text::of_known(alloc, b"org.freedesktop.policykit.owner".as_slice())
}

/// The action with this annotation.
fn annotated(alloc: Global, action: Action, key: Text, value: &[u8]) -> Result<Action, LineKind>
    ensures value { Gives result (annotated action key value.now) }
{
    let mut action = action;
    let value = Text::try_from_bytes(alloc, value)?;
    put(&mut action.annotations, Pair { key, value })?;
    Ok(action)
}

/// Puts an action into the draft, with this annotation.
fn put_annotated(
    alloc: Global,
    draft: &mut Loaded,
    action: Action,
    key: Text,
    value: &[u8],
) -> Result<(), LineKind>
    ensures ok { OnOk result (put_annotated draft.old action key value.now ≡ Ok draft.new) }
    ensures err { IfErr result (λ kind. IsFaultOf kind (put_annotated draft.old action key value.now)) }
{
    let action = annotated(alloc, action, key, value)?;
    put_action(draft, action)
}

/// The first annotation that has the ids of implied actions.
fn implying(pairs: &[Pair]) -> Option<&Pair>
    ensures first { option_copied result ≡ find (λ p. bytes_eq p.key imply_key) pairs.now }
{
    pairs.iter().find(|pair| pair.key.bytes() == b"org.freedesktop.policykit.imply".as_slice())
}

/// The ids that an action implies, as its annotation has them.
fn implied_by(action: &Action) -> &[u8]
    ensures ids { result.now ≡ implied_by action.now }
{
    match implying(action.annotations.as_slice()) {
        Some(pair) => pair.value.bytes(),
        None => &[],
    }
}

/// Ids with one more after them.
fn one_more_id(alloc: Global, ids: &[u8], id: &[u8]) -> Result<Vec<u8>, NoMemory>
    ensures bytes { IfOk result (λ bytes. bytes.items ≡ one_more_id ids.now id.now) }
{
    let mut bytes = Vec::from_slice(alloc, ids)?;
    if !ids.is_empty() {
        bytes.push(b' ')?;
    }
    bytes.extend_from_slice(id)?;
    Ok(bytes)
}

/// The draft's first action with the id implies one more.
///
/// # Errors
/// `Value` exactly where there is no such action, or its annotation would not be a text, or it has
/// too many annotations; `NoMemory`.
pub fn imply(
    alloc: Global,
    draft: &mut Loaded,
    id: &ActionId,
    implied: &ActionId,
) -> Result<(), LineKind>
    ensures ok { OnOk result (imply draft.old id.now implied.now ≡ Ok draft.new) }
    ensures err { IfErr result (λ kind. IsFaultOf kind (imply draft.old id.now implied.now)) }
{
    let Some(found) = draft.policy.action(id.text()) else {
        return Err(LineKind::Value);
    };
    let ids = one_more_id(alloc, implied_by(found), implied.bytes())?;
    let copy = found.try_copy()?;
    let key = imply_key(alloc)?;
    put_annotated(alloc, draft, copy, key, &ids)
}

/// The draft's first action with the id has these owners.
///
/// # Errors
/// As for `imply`.
pub fn own(
    alloc: Global,
    draft: &mut Loaded,
    id: &ActionId,
    identities: &TextList,
) -> Result<(), LineKind>
    ensures ok { OnOk result (own draft.old id.now identities.now ≡ Ok draft.new) }
    ensures err { IfErr result (λ kind. IsFaultOf kind (own draft.old id.now identities.now)) }
{
    let Some(found) = draft.policy.action(id.text()) else {
        return Err(LineKind::Value);
    };
    let names = owners(alloc, identities.as_slice())?;
    let copy = found.try_copy()?;
    let key = owner_key(alloc)?;
    put_annotated(alloc, draft, copy, key, &names)
}
