// Subjects that a caller may speak for.
ghost use Rattle.std.specs.Prelude.{◌≡◌, List, Ok, Err, MatchResult};
ghost use Rattle.authority_model.specs.declared.journal.Item.{Item};
ghost use Rattle.authority_model.specs.Facts.{facts_seen};
ghost use Rattle.event_answers.specs.Asked.{IsAsked, permitted};

use crate::asking::Asking;
use authority_model::{ErrorCause, Facts};
use journal_view::{JournalView, facts};
use pk_types::Subject;

/// What is known of a subject that the caller may speak for.
///
/// # Errors
/// `UnknownSubject` where nothing is known of it, and `NotYours` where the caller may not.
pub fn permitted<'a, V: JournalView>(
    view: &'a V,
    asking: Asking,
    subject: &Subject,
) -> Result<Facts<'a>, ErrorCause>
    ensures facts { (past : List Item) → IsAsked past (V.seen view.now) asking → let known = permitted past asking.to.caller subject.now in
        MatchResult result (λ f. known ≡ Ok (facts_seen f)) (λ cause. known ≡ Err cause) }
{
    match facts(view, subject) {
        None => Err(ErrorCause::UnknownSubject),
        Some(facts) => {
            if asking.may_for(facts.uid) {
                Ok(facts)
            } else {
                Err(ErrorCause::NotYours)
            }
        }
    }
}
