// The last rule that matches at an identity place.
ghost use Rattle.std.specs.Prelude.{◌≡◌};
ghost use Rattle.std.specs.Option.{option_map};
ghost use Rattle.authority_model.specs.Lists.{find_last};
ghost use Rattle.authority_model.specs.Rules.{matches_at, last_at};
ghost use Rattle.authority_model.specs.Small.{IsShort};
ghost use Rattle.policy_decide.specs.Walks.{rule_seen};
ghost use Rattle.rulebook.specs.Indexes.{rows_at, later, listed, IsIndexOf};

use crate::globs::listed;
use crate::index::RuleIndex;
use authority_model::{Policy, RuleList};
use pk_types::{Category, Text};
use policy_decide::{Rule, matches_at};

/// What a search came to: the rule, and how many were looked at.
#[derive(Clone, Copy)]
pub struct Search<'a> {
    pub rule: Option<Rule<'a>>,
    pub visited: u32,
}

/// The last of the rules at these places that matches at the place with this label.
fn last_listed<'a>(
    entries: &'a RuleList,
    places: &[u32],
    action: &Text,
    category: Category,
    label: &Text,
) -> Search<'a>
    ensures last { option_map rule_seen result.rule
        ≡ find_last (λ (place, entry). matches_at label.now action.now category entry) (rows_at entries.now places.now) }
{
    let mut visited = 0u32;
    for i in (0..places.len()).rev() {
        let place = places[i];
        visited = visited.saturating_add(1);
        if let Some(entry) = entries.get(place as usize) {
            if matches_at(label, action, category, entry) {
                return Search {
                    rule: Some(Rule { place, entry }),
                    visited,
                };
            }
        }
    }
    Search {
        rule: None,
        visited,
    }
}

/// The rule with the greater place of two that may be there.
fn later_rule<'a>(a: Option<Rule<'a>>, b: Option<Rule<'a>>) -> Option<Rule<'a>>
    ensures later { option_map rule_seen result ≡ later (option_map rule_seen a.entry) (option_map rule_seen b.entry) }
{
    match (a, b) {
        (None, _) => b,
        (Some(_), None) => a,
        (Some(x), Some(y)) => { if x.place < y.place { b } else { a } }
    }
}

/// The search whose rule has the greater place. Both count as visited.
fn later<'a>(a: Search<'a>, b: Search<'a>) -> Search<'a>
    ensures later { option_map rule_seen result.rule
        ≡ later (option_map rule_seen a.entry.rule) (option_map rule_seen b.entry.rule) }
{
    Search {
        rule: later_rule(a.rule, b.rule),
        visited: a.visited.saturating_add(b.visited),
    }
}

/// The last rule that matches at the place with this label.
pub fn last_at<'a>(
    index: &RuleIndex,
    policy: &'a Policy,
    action: &Text,
    category: Category,
    label: &Text,
) -> Search<'a>
    requires index { IsIndexOf policy.now index.now }
    ensures last { option_map rule_seen result.rule ≡ last_at policy.now action.now category label.now }
{
    let entries = &policy.entries;
    let exact = last_listed(
        entries,
        listed(&index.exact, label),
        action,
        category,
        label,
    );
    let pattern = last_listed(entries, index.patterns.as_slice(), action, category, label);
    later(exact, pattern)
}
