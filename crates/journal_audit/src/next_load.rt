// The load that an event names.
ghost use Rattle.std.specs.Prelude.{◌≡◌};
ghost use Rattle.std.specs.Option.{option_copied};
ghost use Rattle.journal_audit.specs.Steps.{load_named, loads_behind};

use authority_model::{Event, Loaded};

/// The load that an event names among those that none has named yet, and those that are left after
/// it.
pub fn next_load<'a>(left: &'a [Loaded], event: &Event) -> (Option<&'a Loaded>, &'a [Loaded])
    ensures named { option_copied result.0 ≡ load_named event.now left.now }
    ensures left { result.1.now ≡ loads_behind event.now left.now }
{
    match (event, left) {
        (Event::Load { .. }, [first, rest @ ..]) => (Some(first), rest),
        _ => (None, left),
    }
}
