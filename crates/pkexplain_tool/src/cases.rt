// The cases of a user.
ghost use Rattle.std.specs.Prelude.{◌==◌, ◌∷◌, [], OnOk};
ghost use Rattle.authority_model.specs.Lists.{when};
ghost use Rattle.authority_model.specs.Small.{IsShort};
ghost use Rattle.pkexplain_tool.specs.Accounts.{Explains, Notes};
ghost use Rattle.pkexplain_tool.specs.Cases.{case_of, cases_of_user, row_of};

use crate::account::{Account, Firsts};
use crate::case::Case;
use crate::lines::{push_decided, push_root};
use authority_model::{Action, RuleSource, User};
use pk_types::{Category, NoMemory};
use rulebook::Rulebook;

/// Keeps a case as the first that the rule at a place decides, unless one is kept already.
fn keep_first(
    firsts: &mut Firsts,
    place: u32,
    uid: u32,
    category: Category,
    action: &Action,
) -> Result<(), NoMemory>
    ensures kept { OnOk result (Notes (λ p. when (place == p) (case_of uid category action.now)) firsts.old firsts.new) }
{
    let place = place as usize;
    if let Some(None) = firsts.get(place) {
        let action = action.id.text().try_copy()?;
        let case = Case {
            uid,
            category,
            action,
        };
        firsts.set(place, Some(case));
    }
    Ok(())
}

/// Explains a case.
fn explain_case(
    book: &Rulebook,
    uid: u32,
    category: Category,
    action: &Action,
    account: &mut Account,
) -> Result<(), NoMemory>
    requires entries { IsShort book.now.policy.entries }
    ensures explains { OnOk result (Explains book.now (case_of uid category action.now ∷ []) account.old account.new) }
{
    if uid == 0 {
        return push_root(&mut account.text, uid, category, action.id.text());
    }
    let Some(found) = book.implicit(uid, category, action.id.text()) else {
        return Ok(());
    };
    push_decided(
        &mut account.text,
        uid,
        category,
        action.id.text(),
        found.value,
        found.source,
    )?;
    if let RuleSource::Entry(place) = found.source {
        keep_first(&mut account.firsts, place, uid, category, action)?;
    }
    Ok(())
}

/// Explains the cases of a user in a category.
fn explain_row(
    book: &Rulebook,
    uid: u32,
    category: Category,
    actions: &[Action],
    account: &mut Account,
) -> Result<(), NoMemory>
    requires entries { IsShort book.now.policy.entries }
    ensures explains { OnOk result (Explains book.now (row_of uid category actions.now) account.old account.new) }
{
    for action in actions {
        explain_case(book, uid, category, action, account)?;
    }
    Ok(())
}

/// Explains the cases of a user, category by category.
pub fn explain_user(book: &Rulebook, user: &User, account: &mut Account) -> Result<(), NoMemory>
    requires entries { IsShort book.now.policy.entries }
    ensures explains { OnOk result (Explains book.now (cases_of_user book.now.policy user.now) account.old account.new) }
{
    let actions = book.loaded().policy.actions.as_slice();
    explain_row(book, user.uid, Category::Any, actions, account)?;
    explain_row(book, user.uid, Category::Inactive, actions, account)?;
    explain_row(book, user.uid, Category::Active, actions, account)
}
