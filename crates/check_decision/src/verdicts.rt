// Verdicts on a check where nobody is asked.
ghost use Rattle.std.specs.Prelude.{◌≡◌, [], List, IfOk};
ghost use Rattle.authority_model.specs.declared.journal.Item.{Item};
ghost use Rattle.authority_model.specs.Items.{policy_of};
ghost use Rattle.authority_model.specs.Verdicts.{yes_by, no_by, challenge_by, granted_by, verdict_of};
ghost use Rattle.authority_model.specs.Verdicts as verdicts;
ghost use Rattle.check_decision.specs.DecisionRef.{decision_seen};

use crate::decisions::DecisionRef;
use crate::values::is_keep;
use authority_model::{Policy, Reason, RuleSource, Verdict};
use pk_types::{List, NoMemory, PairList};
use std::alloc::Global;

/// Yes for this reason, with these pairs.
fn yes(reason: Reason, pairs: PairList) -> Verdict
    ensures yes { result ≡ yes_by reason pairs }
{
    Verdict {
        yes: true,
        challenge: false,
        reason,
        keep: false,
        grant: None,
        pairs,
    }
}

/// No for this reason. It takes no memory.
pub fn no(alloc: Global, reason: Reason) -> Verdict
    ensures no { result ≡ no_by reason }
{
    Verdict {
        yes: false,
        challenge: false,
        reason,
        keep: false,
        grant: None,
        pairs: List::new(alloc),
    }
}

/// A challenge, which would make a temporary authorization where `keep` says so.
fn challenge(alloc: Global, reason: Reason, keep: bool) -> Verdict
    ensures challenge { result ≡ challenge_by reason keep }
{
    Verdict {
        yes: false,
        challenge: true,
        reason,
        keep,
        grant: None,
        pairs: List::new(alloc),
    }
}

/// Yes by a challenge that was answered, with the number of the temporary authorization that it
/// made.
pub fn granted(alloc: Global, grant: Option<u64>) -> Verdict
    ensures granted { result ≡ granted_by grant }
{
    Verdict {
        yes: true,
        challenge: false,
        reason: Reason::Challenge,
        keep: false,
        grant,
        pairs: List::new(alloc),
    }
}

/// What gave a value, as a reason.
fn reason_of(source: RuleSource) -> Reason
    ensures reason { result ≡ verdicts.reason_of source }
{
    match source {
        RuleSource::Default(category) => Reason::Default(category),
        RuleSource::Entry(place) => Reason::Entry(place),
    }
}

/// A copy of the pairs of the rule that gave a value, and no pairs where no rule gave it.
fn pairs_of(alloc: Global, policy: &Policy, source: RuleSource) -> Result<PairList, NoMemory>
    ensures pairs { (past : List Item) → policy.now ≡ policy_of past → IfOk result (λ pairs. pairs ≡ verdicts.pairs_of past source) }
{
    match source {
        RuleSource::Default(_) => Ok(List::new(alloc)),
        RuleSource::Entry(place) => match policy.entries.get(place as usize) {
            Some(entry) => entry.pairs.try_copy(),
            None => Ok(List::new(alloc)),
        },
    }
}

/// The verdict of a decision, where nobody is asked.
pub fn verdict(
    alloc: Global,
    policy: &Policy,
    decision: &DecisionRef<'_>,
) -> Result<Verdict, NoMemory>
    ensures verdict { (past : List Item) → policy.now ≡ policy_of past
        → IfOk result (λ v. v ≡ verdict_of past (decision_seen decision.now)) }
{
    match decision {
        DecisionRef::Root => Ok(yes(Reason::Root, List::new(alloc))),
        DecisionRef::Yes(source) => {
            let pairs = pairs_of(alloc, policy, *source)?;
            Ok(yes(reason_of(*source), pairs))
        }
        DecisionRef::Grant(id) => Ok(yes(Reason::Grant(*id), List::new(alloc))),
        DecisionRef::Imply(id) => {
            let id = id.try_copy()?;
            Ok(yes(Reason::Imply(id), List::new(alloc)))
        }
        DecisionRef::Challenge(value, source) => {
            Ok(challenge(alloc, reason_of(*source), is_keep(*value)))
        }
        DecisionRef::No(source) => Ok(no(alloc, reason_of(*source))),
    }
}
