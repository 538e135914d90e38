// What is written.
ghost use Rattle.std.specs.Prelude.{◌≡◌, ◌++◌, [], None, IfOk, OnOk, OnErr, flat_map, length, replicate};
ghost use Rattle.pk_outside.specs.Allowing.{IsFree};
ghost use Rattle.pk_outside.specs.Streams.{Got, GotFront, GotUpTo};
ghost use Rattle.scenario_text.specs.Skipped.{skipped_lines};
ghost use Rattle.authority_model.specs.Small.{IsShort};
ghost use Rattle.pkexplain_tool.specs.Accounts.{AreFirsts, StopFaults, Tells};
ghost use Rattle.pkexplain_tool.specs.Cases.{cases_of, cases_of_user};
ghost use Rattle.pkexplain_tool.specs.Lines.{case_lines, explained, rule_lines, text_of};

use crate::account::{Account, no_firsts};
use crate::cases::explain_user;
use crate::rules::push_rules;
use crate::stop::Stop;
use authority_model::{Loaded, User};
use pk_outside::{Sink, write_all};
use pk_types::NoMemory;
use rulebook::Rulebook;
use scenario_text::skipped_text;
use std::alloc::Global;

/// With so many bytes the lines are written, so that they stay few.
const MANY: usize = 65_536;

/// Writes the lines that are ready.
#[tactic(auto, using(pk_outside::proofs::Going::may_go_free))]
fn write_ready<O: Sink>(text: &mut Vec<u8>, output: &mut O) -> Result<(), Stop>
    requires free { IsFree O.allowed }
    ensures ok { OnOk result (Got (O.held output.old) (O.held output.new) text.old.items) }
    ensures empty { OnOk result (text.new.items ≡ []) }
    ensures err { OnErr result (GotFront (O.held output.old) (O.held output.new) text.old.items) }
    ensures faults { StopFaults O.held O.faults output.old output.new result }
{
    write_all(output, text.as_slice())?;
    text.clear();
    Ok(())
}

/// Writes the lines that are ready, where they are many.
fn write_many<O: Sink>(text: &mut Vec<u8>, output: &mut O) -> Result<(), Stop>
    requires free { IsFree O.allowed }
    ensures ok { OnOk result (GotUpTo (O.held output.old) (O.held output.new) text.old.items text.new.items) }
    ensures err { OnErr result (GotFront (O.held output.old) (O.held output.new) text.old.items) }
    ensures faults { StopFaults O.held O.faults output.old output.new result }
{
    if text.len() < MANY {
        return Ok(());
    }
    write_ready(text, output)
}

/// Explains the cases of a user, and writes the lines that are ready, where they are many.
fn tell_user<O: Sink>(
    book: &Rulebook,
    user: &User,
    account: &mut Account,
    output: &mut O,
) -> Result<(), Stop>
    requires free { IsFree O.allowed }
    requires entries { IsShort book.now.policy.entries }
    ensures ok { OnOk result (Tells book.now (cases_of_user book.now.policy user.now) account.old account.new (O.held output.old) (O.held output.new)) }
    ensures err { OnErr result (GotFront (O.held output.old) (O.held output.new)
        (account.old.text.items ++ text_of (case_lines book.now (cases_of_user book.now.policy user.now)))) }
    ensures faults { StopFaults O.held O.faults output.old output.new result }
{
    explain_user(book, user, account)?;
    write_many(&mut account.text, output)
}

/// Explains the cases of these users, one after another.
fn tell_users<O: Sink>(
    book: &Rulebook,
    users: &[User],
    account: &mut Account,
    output: &mut O,
) -> Result<(), Stop>
    requires free { IsFree O.allowed }
    requires entries { IsShort book.now.policy.entries }
    ensures ok { OnOk result (Tells book.now (flat_map (cases_of_user book.now.policy) users.now) account.old account.new (O.held output.old) (O.held output.new)) }
    ensures err { OnErr result (GotFront (O.held output.old) (O.held output.new)
        (account.old.text.items ++ text_of (case_lines book.now (flat_map (cases_of_user book.now.policy) users.now)))) }
    ensures faults { StopFaults O.held O.faults output.old output.new result }
{
    for user in users {
        tell_user(book, user, account, output)?;
    }
    Ok(())
}

/// Explains the rules, and writes all that is ready.
fn tell_rules<O: Sink>(loaded: &Loaded, mut account: Account, output: &mut O) -> Result<(), Stop>
    requires free { IsFree O.allowed }
    requires firsts { AreFirsts loaded.now account.firsts }
    ensures ok { OnOk result (Got (O.held output.old) (O.held output.new) (account.text.items ++ text_of (rule_lines loaded.now))) }
    ensures err { OnErr result (GotFront (O.held output.old) (O.held output.new) (account.text.items ++ text_of (rule_lines loaded.now))) }
    ensures faults { StopFaults O.held O.faults output.old output.new result }
{
    push_rules(&mut account.text, loaded, &account.firsts)?;
    write_ready(&mut account.text, output)
}

/// Explains a load whose indexes are made: it puts the lines of the cases and of the rules behind
/// those of an account that has no first case yet.
fn tell_book<O: Sink>(book: &Rulebook, mut account: Account, output: &mut O) -> Result<(), Stop>
    requires free { IsFree O.allowed }
    requires entries { IsShort book.now.policy.entries }
    requires firsts { account.firsts ≡ replicate (length book.now.policy.entries) None }
    ensures ok { OnOk result (Got (O.held output.old) (O.held output.new)
        (account.text.items ++ text_of (case_lines book.now (cases_of book.now) ++ rule_lines book.now))) }
    ensures err { OnErr result (GotFront (O.held output.old) (O.held output.new)
        (account.text.items ++ text_of (case_lines book.now (cases_of book.now) ++ rule_lines book.now))) }
    ensures faults { StopFaults O.held O.faults output.old output.new result }
{
    let loaded = book.loaded();
    tell_users(book, loaded.world.users.as_slice(), &mut account, output)?;
    tell_rules(loaded, account, output)
}

/// The account of a load of which no case was explained: what the load skipped.
fn begun(alloc: Global, loaded: &Loaded) -> Result<Account, NoMemory>
    ensures text { IfOk result (λ account. account.text.items ≡ skipped_lines loaded.now.faults) }
    ensures firsts { IfOk result (λ account. account.firsts ≡ replicate (length loaded.now.policy.entries) None) }
{
    let text = skipped_text(alloc, loaded.faults.as_slice())?.into_vec();
    let firsts = no_firsts(alloc, loaded.policy.entries.len())?;
    Ok(Account { text, firsts })
}

/// The load with its indexes, where the places of its rules fit in 32 bits, as they do in any
/// memory.
fn indexed(alloc: Global, loaded: Loaded) -> Result<Rulebook, NoMemory>
    ensures book { IfOk result (λ book. book ≡ loaded) }
    ensures entries { OnOk result (IsShort loaded.policy.entries) }
{
    if u32::try_from(loaded.policy.entries.len()).is_err() {
        return Err(NoMemory);
    }
    match Rulebook::of(alloc, loaded) {
        Ok(book) => Ok(book),
        Err((NoMemory, _)) => Err(NoMemory),
    }
}

/// Writes the explanation of a load.
///
/// # Errors
/// `Failed` where the last write failed and counted one fault; `NoMemory`. A prefix of the
/// explanation was written.
pub fn tell_load<O: Sink>(alloc: Global, loaded: Loaded, output: &mut O) -> Result<(), Stop>
    requires free { IsFree O.allowed }
    ensures ok { OnOk result (Got (O.held output.old) (O.held output.new) (text_of (explained loaded))) }
    ensures err { OnErr result (GotFront (O.held output.old) (O.held output.new) (text_of (explained loaded))) }
    ensures faults { StopFaults O.held O.faults output.old output.new result }
{
    let account = begun(alloc, &loaded)?;
    let book = indexed(alloc, loaded)?;
    tell_book(&book, account, output)
}
