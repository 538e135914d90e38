// The passes of a connection, and what is entered by them.
ghost use Rattle.std.specs.Prelude.{IfSome};
ghost use Rattle.authority_model.specs.Given.{IsStepped};
ghost use Rattle.connection_serve.specs.Headline.{IsFresh};

use authority_model::{Event, History};
use history_lock::{Pass, TableName};
use shared_authority::{Kept, LimitsName, Shared};
use std::sync::Wait;
use test_parts::new_pass;

/// The two passes of a connection. None where one of them is refused.
pub(crate) fn two_passes<L: LimitsName, T: TableName, R: Wait>(
    rt: &R,
    shared: &Shared<L, T>,
    zero: &mut Pass<Kept<L>, T>,
) -> Option<(Pass<Kept<L>, T>, Pass<Kept<L>, T>)>
    ensures { IfSome result (λ (pass, collector). IsFresh pass collector) }
{
    let _number = zero.number();
    let mut pass = new_pass(rt, shared, zero)?;
    let collector = new_pass(rt, shared, &mut pass)?;
    Some((pass, collector))
}

/// Submits an event, and answers whether it was entered.
pub(crate) fn is_entered<L: LimitsName, T: TableName, R: Wait>(
    rt: &R,
    shared: &Shared<L, T>,
    pass: &mut Pass<Kept<L>, T>,
    event: Event,
) -> bool
    requires { IsStepped event }
{
    has_place(shared.submit(rt, pass, 0, 0, event))
}

/// Whether an event that was submitted has its place in the journal.
pub(crate) fn has_place<E: Drop>(submitted: Result<u64, E>) -> bool {
    submitted.is_ok()
}

/// How many entries a journal has, how many of them are Loads, and how many are LoadFaileds of a tree
/// that failed.
#[derive(Clone, Copy)]
pub(crate) struct Counts {
    pub(crate) entries: usize,
    pub(crate) loads: usize,
    pub(crate) refused: usize,
}

/// Closes an authority, and counts in its journal.
pub(crate) fn close<L: LimitsName, T: TableName>(
    shared: Shared<L, T>,
    pass: Pass<Kept<L>, T>,
) -> Counts {
    let authority = shared.close(pass);
    count(authority.history())
}

fn count(history: &History) -> Counts {
    let entries = history.entries.as_slice();
    let loads = entries
        .iter()
        .filter(|entry| matches!(entry.event, Event::Load { .. }))
        .count();
    let refused = entries
        .iter()
        .filter(|entry| matches!(entry.event, Event::LoadFailed { code: 1 }))
        .count();
    Counts {
        entries: entries.len(),
        loads,
        refused,
    }
}
