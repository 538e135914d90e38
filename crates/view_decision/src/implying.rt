// Actions that imply another (the annotation org.freedesktop.policykit.imply of polkit(8)).
ghost use Rattle.std.specs.Prelude.{◌≡◌, false, is_some, find};
ghost use Rattle.std.specs.Option.{option_copied, option_map_or};
ghost use Rattle.authority_model.specs.Items.{implicit_for};
ghost use Rattle.authority_model.specs.Facts.{facts_seen};
ghost use Rattle.authority_model.specs.Grants.{kept};
ghost use Rattle.authority_model.specs.Keys.{key_seen};
ghost use Rattle.authority_model.specs.Rules as rules;
ghost use Rattle.authority_model.specs.Small.{IsShort};
ghost use Rattle.authority_model.specs.Words.{least_text};
ghost use Rattle.authority_model.specs.Deciding as deciding;
ghost use Rattle.authority_model.specs.Values as values;
ghost use Rattle.journal_view.specs.Seen.{ForHistory};
ghost use Rattle.view_decision.specs.Implying.{counted};

use crate::annotations::annotates;
use crate::order::lesser;
use authority_model::{Action, Facts};
use check_decision::is_yes;
use journal_view::JournalView;
use pk_types::Text;

/// The annotation by which an action implies others.
const IMPLY_KEY: &[u8] = b"org.freedesktop.policykit.imply";

/// Whether an action lists another in its annotation.
fn lists(candidate: &Action, id: &Text) -> bool
    ensures lists { result ≡ rules.annotates candidate.now deciding.imply_key id.now }
{
    annotates(candidate, IMPLY_KEY, id.bytes())
}

/// Whether the action of one id lists another in its annotation.
fn implies<V: JournalView>(view: &V, from: &Text, id: &Text) -> bool
    ensures implies { ForHistory (V.seen view.now) (λ past. result ≡ deciding.implies past from.now id.now) }
{
    match view.action(from) {
        Some(first) => lists(first, id),
        None => false,
    }
}

/// Whether the value of an action is yes for a subject of these facts.
fn is_yes_for<V: JournalView>(view: &V, facts: &Facts<'_>, id: &Text) -> bool
    requires rules { IsShort (V.seen view.now).loaded.policy.entries }
    ensures yes { ForHistory (V.seen view.now) (λ past.
        result ≡ option_map_or (λ (value, source). values.is_yes value) (implicit_for past (facts_seen facts.now) id.now) false) }
{
    match view.implicit(facts.uid, facts.category, id) {
        Some((value, _)) => is_yes(value),
        None => false,
    }
}

/// Whether a temporary authorization is live for a subject of these facts and an action.
fn is_granted<V: JournalView>(view: &V, facts: &Facts<'_>, moment: u64, id: &Text) -> bool
    ensures granted { ForHistory (V.seen view.now) (λ past.
        result ≡ is_some (find (deciding.serves (key_seen facts.now.key) id.now moment) (kept past))) }
{
    view.grant(facts.key, id, moment).is_some()
}

/// Whether an action is allowed by its own value or by a temporary authorization of its own.
fn is_allowed<V: JournalView>(view: &V, facts: &Facts<'_>, moment: u64, id: &Text) -> bool
    requires rules { IsShort (V.seen view.now).loaded.policy.entries }
    ensures own { ForHistory (V.seen view.now) (λ past.
        result ≡ deciding.own past (kept past) (facts_seen facts.now) moment id.now) }
{
    is_yes_for(view, facts, id) || is_granted(view, facts, moment, id)
}

/// Whether an action implies another and is allowed. Where several actions have one id, the first
/// counts, and it is looked up only for those that list the other.
fn counts<V: JournalView>(
    view: &V,
    facts: &Facts<'_>,
    moment: u64,
    candidate: &Action,
    id: &Text,
) -> bool
    requires rules { IsShort (V.seen view.now).loaded.policy.entries }
    ensures counts { ForHistory (V.seen view.now) (λ past.
        result ≡ counted past (kept past) (facts_seen facts.now) moment id.now candidate.now) }
{
    let from = candidate.id.text();
    lists(candidate, id) && implies(view, from, id) && is_allowed(view, facts, moment, from)
}

/// The least id of the actions that imply another and are allowed.
pub fn least_implying<'a, V: JournalView>(
    view: &'a V,
    facts: &Facts<'_>,
    moment: u64,
    id: &Text,
) -> Option<&'a Text>
    requires rules { IsShort (V.seen view.now).loaded.policy.entries }
    ensures least { ForHistory (V.seen view.now) (λ past.
        option_copied result ≡ least_text (deciding.implying past (kept past) (facts_seen facts.now) moment id.now)) }
{
    let mut least: Option<&Text> = None;
    for candidate in view.loaded().policy.actions.as_slice() {
        if counts(view, facts, moment, candidate, id) {
            least = Some(lesser(candidate.id.text(), least));
        }
    }
    least
}
