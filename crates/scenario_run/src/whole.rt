// A journal that is kept whole.
ghost use Rattle.std.specs.Prelude.{◌≡◌, ◌^◌, ◌≤◌, ◌∷◌, None, IfErr, IfOk, IfSome, OnErr, OnOk};
ghost use Rattle.authority_model.specs.Given.{IsStepped, event_given, load_given, next};
ghost use Rattle.authority_model.specs.Items.{items_of};
ghost use Rattle.authority_model.specs.Legal.{Legal};
ghost use Rattle.scenario_text.specs.Answers.{message_line};
ghost use Rattle.scenario_run.specs.Journals.{IsDue, is_first};
ghost use Rattle.scenario_run.specs.Room.{full_at, whole};
ghost use Rattle.scenario_run.specs.Text.{last_outputs, loads_of};

use crate::journal::Refused;
use authority_core::Authority;
use authority_model::{Event, Loaded, Output};
use pk_types::{ByteList, NoMemory};
use scenario_text::answer_text;
use std::alloc::Global;

/// Whether there is no item.
pub(crate) fn is_empty(authority: &Authority) -> bool
    ensures empty { result ≡ is_first (items_of authority.now.history) }
{
    authority.history().entries.is_empty()
}

/// The outputs of the newest entry.
pub(crate) fn last_outputs(authority: &Authority) -> Option<&[Output]>
    ensures outputs { IfSome result (λ outputs. outputs.now ≡ last_outputs (items_of authority.now.history)) }
{
    let entry = authority.history().entries.as_slice().last()?;
    Some(entry.outputs.as_slice())
}

/// The answer line of one of the outputs.
pub(crate) fn answer(
    authority: &Authority,
    alloc: Global,
    output: &Output,
    serial: u32,
) -> Result<ByteList, NoMemory>
    ensures line { IfOk result (λ line. line ≡ message_line (loads_of (items_of authority.now.history)) output.now.to serial output.now.message) }
{
    answer_text(alloc, output, authority.history(), serial)
}

/// Adds the entry of an event.
pub(crate) fn enter(
    authority: &mut Authority,
    caller: u32,
    moment: u64,
    event: Event,
) -> Result<(), Refused>
    requires event { IsStepped event }
    requires moment { moment ≤ 2 ^ 62 }
    ensures kept { authority.new.limits ≡ authority.old.limits }
    ensures room { OnOk result (full_at (whole authority.old.limits) (items_of authority.old.history) ≡ None) }
    ensures item { OnOk result (items_of authority.new.history ≡ next (items_of authority.old.history) (event_given caller moment 0 event) ∷ items_of authority.old.history) }
    ensures err { OnErr result (items_of authority.new.history ≡ items_of authority.old.history) }
    ensures refused { IfErr result (IsDue (whole authority.old.limits) (items_of authority.old.history)) }
    ensures legal { Legal (items_of authority.new.history) }
{
    match authority.step(caller, moment, 0, event) {
        Ok(_) => Ok(()),
        Err(refused) => {
            let (halt, event) = refused.into_parts();
            drop(event);
            Err(Refused::from(halt))
        }
    }
}

/// Adds the entry of the next load.
pub(crate) fn enter_load(
    authority: &mut Authority,
    moment: u64,
    loaded: Loaded,
) -> Result<(), Refused>
    requires moment { moment ≤ 2 ^ 62 }
    ensures kept { authority.new.limits ≡ authority.old.limits }
    ensures room { OnOk result (full_at (whole authority.old.limits) (items_of authority.old.history) ≡ None) }
    ensures item { OnOk result (items_of authority.new.history ≡ next (items_of authority.old.history) (load_given 0 moment loaded) ∷ items_of authority.old.history) }
    ensures err { OnErr result (items_of authority.new.history ≡ items_of authority.old.history) }
    ensures refused { IfErr result (IsDue (whole authority.old.limits) (items_of authority.old.history)) }
    ensures legal { Legal (items_of authority.new.history) }
{
    match authority.load(0, moment, loaded) {
        Ok(_) => Ok(()),
        Err(refused) => {
            let (halt, loaded) = refused.into_parts();
            drop(loaded);
            Err(Refused::from(halt))
        }
    }
}
