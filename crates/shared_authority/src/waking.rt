// Whom an entry wakes.
ghost use Rattle.std.specs.Prelude.{◌≡◌, ℕ, ◌<◌, true};
ghost use Rattle.history_lock.specs.Waking.{Wakes};
ghost use Rattle.authority_model.specs.Items.{count_to};
ghost use Rattle.authority_model.specs.Peers.{is_depart};

use authority_model::{Entry, Event, Output};
use history_lock::Woken;

/// These, and those that wait for the receiver of an output.
fn with_receivers(outputs: &[Output], before: Woken) -> Woken
    ensures keeps { (c : ℕ) → Wakes before c → Wakes result c }
    ensures receivers { (c : ℕ) → 0 < count_to c outputs.now → Wakes result c }
{
    let mut woken = before;
    for output in outputs {
        woken = woken.with(output.to);
    }
    woken
}

/// Whom an entry wakes: those that wait for a connection to which it sends something, or which
/// departs by it.
pub fn woken_by(entry: &Entry) -> Woken
    ensures receivers { (c : ℕ) → 0 < count_to c entry.now.outputs → Wakes result c }
    ensures departed { is_depart entry.now.event ≡ true → Wakes result entry.now.caller }
{
    let departed = match entry.event {
        Event::Depart => Woken::nobody().with(entry.caller),
        _ => Woken::nobody(),
    };
    with_receivers(entry.outputs.as_slice(), departed)
}

/// Whom an entry wakes but for those that wait for its own connection: those that wait for another
/// to which it sends something.
pub fn others_woken_by(entry: &Entry) -> Woken
    ensures { (c : ℕ) → ¬ (c ≡ entry.now.caller) → 0 < count_to c entry.now.outputs → Wakes result c }
{
    let mut others = Woken::nobody();
    for output in entry.outputs.as_slice() {
        if output.to != entry.caller {
            others = others.with(output.to);
        }
    }
    others
}
