// The rules that match at an identity place.
ghost use Rattle.std.specs.Prelude.{◌≡◌};
ghost use Rattle.std.specs.Option.{option_map};
ghost use Rattle.glob_match.specs.Glob.{matches as matches_glob};
ghost use Rattle.authority_model.specs.Lists.{any_of};
ghost use Rattle.authority_model.specs.Rules.{matches_at};
ghost use Rattle.authority_model.specs.Small.{IsShort};
ghost use Rattle.policy_decide.specs.Walks.{rule_seen, last_of};

use authority_model::RuleEntry;
use glob_match::matches;
use pk_types::{Category, Text};

/// A rule with its place among the rules, counted from 0.
#[derive(Clone, Copy)]
pub struct Rule<'a> {
    pub place: u32,
    pub entry: &'a RuleEntry,
}

/// Whether a text is in one of these globs.
fn is_in_any(globs: &[Text], text: &Text) -> bool
    ensures any { result ≡ any_of (λ glob. matches_glob glob text.now) globs.now }
{
    globs.iter().any(|glob| matches(glob, text))
}

/// Whether a rule matches at the place with this label: one of its identity globs has the label, one
/// of its action globs the action, and it has a value for the category.
pub fn matches_at(label: &Text, action: &Text, category: Category, entry: &RuleEntry) -> bool
    ensures matches { result ≡ matches_at label.now action.now category entry.now }
{
    entry.value_for(category).is_some()
        && is_in_any(entry.identities.as_slice(), label)
        && is_in_any(entry.actions.as_slice(), action)
}

/// The last of these rules that matches at the place with this label.
pub fn last_of<'a>(
    entries: &'a [RuleEntry],
    action: &Text,
    category: Category,
    label: &Text,
) -> Option<Rule<'a>>
    requires entries { IsShort entries.now }
    ensures last { option_map rule_seen result ≡ last_of entries.now action.now category label.now }
{
    for i in (0..entries.len()).rev() {
        let entry = &entries[i];
        if matches_at(label, action, category, entry) {
            return Some(Rule {
                place: i as u32,
                entry,
            });
        }
    }
    None
}
