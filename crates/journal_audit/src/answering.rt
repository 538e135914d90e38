// What an entry is to be answered, and what it changes.
ghost use Rattle.std.specs.Prelude.{◌≡◌, ℕ, List, IfOk};
ghost use Rattle.std.specs.Option.{option_copied};
ghost use Rattle.authority_model.specs.declared.journal.Item.{Item};
ghost use Rattle.authority_model.specs.Answers.{answers};
ghost use Rattle.authority_model.specs.Legal.{IsNumbered};
ghost use Rattle.authority_model.specs.Small.{IsShort};
ghost use Rattle.entry_changes.specs.Changes.{entry_change};
ghost use Rattle.journal_view.specs.Seen.{IsSeenOf};
ghost use Rattle.plain_view.specs.Plain.{plain_seen};

use authority_model::{Entry, Loaded};
use event_answers::{Answered, Occasion, answer, answer_load};
use pk_types::NoMemory;
use plain_view::PlainView;
use std::alloc::Global;

/// What an entry with this load is to be answered, and what it changes.
///
/// # Errors
/// `NoMemory`.
pub fn answer_entry(
    alloc: Global,
    view: &PlainView,
    entry: &Entry,
    loaded: Option<&Loaded>,
) -> Result<Answered, NoMemory>
    requires numbered { (n : ℕ) × IsNumbered n entry.now.event (option_copied loaded) }
    requires rules { IsShort (plain_seen view.now).loaded.policy.entries }
    ensures outputs { (past : List Item) → IsSeenOf past (plain_seen view.now)
        → IfOk result (λ a. a.outputs ≡ answers past entry.now.caller entry.now.moment entry.now.salt entry.now.event (option_copied loaded.entry)) }
    ensures change { (past : List Item) → IsSeenOf past (plain_seen view.now)
        → IfOk result (λ a. a.change ≡ entry_change past entry.now.caller entry.now.moment entry.now.salt entry.now.event (option_copied loaded.entry)) }
{
    match loaded {
        Some(loaded) => answer_load(alloc, view, &loaded.world),
        None => {
            let occasion = Occasion {
                moment: entry.moment,
                salt: entry.salt,
            };
            answer(alloc, view, entry.caller, occasion, &entry.event)
        }
    }
}
