// Whether words name a plan.
ghost use Rattle.std.specs.Prelude.{◌≡◌, [], ℕ, List, None, MatchOption, is_some};
ghost use Rattle.serve_words.specs.Doors.{Leaves};
ghost use Rattle.serve_words.specs.Plans.{doors_from, plan_from, plan_in};

use crate::amounts::{amounts_in, value_of};
use crate::reading::{is_root, is_served};
use command_line::is_door;
use pk_types::Text;

/// The words behind the doors that the words name, and `None` exactly where one is not of the form.
#[tactic(auto, using(crate::proofs::Doors::fewer_words, crate::proofs::Checked::none_so_far, crate::proofs::Checked::one_more, crate::proofs::Checked::not_a_door, crate::proofs::Checked::all_read))]
fn behind_doors(words: &[Text]) -> Option<&[Text]>
    ensures leaves { MatchOption result (doors_from [] words.now ≡ None) (λ rest. Leaves words.now rest.now) }
{
    let mut rest = words;
    while let Some((word, later)) = value_of(rest, b"--door") {
        if !is_door(word.bytes()) {
            return None;
        }
        rest = later;
    }
    Some(rest)
}

/// Whether the words behind the root name a plan.
#[tactic(auto, using(crate::proofs::Checked::no_doors, crate::proofs::Checked::no_amounts, crate::proofs::Checked::with_amounts))]
fn is_plan_from(words: &[Text]) -> bool
    ensures plan { (root : List ℕ) → result ≡ is_some (plan_from root words.now) }
{
    let Some(rest) = behind_doors(words) else {
        return false;
    };
    match amounts_in(rest) {
        Some(amounts) => is_served(amounts.slots, (words.len() - rest.len()) / 2),
        None => false,
    }
}

/// Whether the words behind `serve` name a plan, as `read_plan` has it. It takes no memory.
pub fn is_plan(words: &[Text]) -> bool
    ensures plan { result ≡ is_some (plan_in words.now) }
{
    match value_of(words, b"--root") {
        Some((root, rest)) => is_root(root) && is_plan_from(rest),
        None => false,
    }
}
