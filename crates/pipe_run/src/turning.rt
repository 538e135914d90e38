// What is handed in: the beginning, what each message asks, the loads that are asked for, and the end.
ghost use Rattle.std.specs.Prelude.{◌≡◌, ◌≤◌, ◌^◌, ◌∷◌, [], true, OnOk};
ghost use Rattle.authority_model.specs.Items.{sent};
ghost use Rattle.authority_model.specs.Legal.{Legal};
ghost use Rattle.authority_calls.specs.Events.{event_of};
ghost use Rattle.authority_model.specs.Given.{IsStepped};
ghost use Rattle.dbus_values.specs.Next.{Seen};
ghost use Rattle.pipe_run.specs.Answered.{IsSubmittable, WriteFaults, given_of};
ghost use Rattle.pipe_run.specs.Promises.{MayGoOn};
ghost use Rattle.pipe_run.specs.Handed.{awaits_load, awaits_message, loading_given};
ghost use Rattle.pipe_run.specs.Supplies.{Supply, supply};
ghost use Rattle.pipe_run.specs.Stages.{IsDeparting, Opens, Turns, standing};

use crate::ends::Stopped;
use crate::served::{CONNECTION, LOADER, Served, Submission};
use authority_model::{Event, Loaded};
use pk_outside::{Clock, Salt, Sink, Tree};
use pk_types::Text;
use policy_load::{LoadRefused, load};

/// Hands in the first load, and then the beginning of the connection of this user.
pub fn open<C: Clock, S: Salt, O: Sink>(
    served: &mut Served,
    uid: u32,
    first: Loaded,
    clock: &mut C,
    salt: &mut S,
    output: &mut O,
) -> Result<(), Stopped>
    requires counted { served.old.sent ≡ sent served.old.past CONNECTION }
    requires first { served.old.past ≡ [] }
    requires may { MayGoOn O.allowed (O.held output.old) served.old }
    ensures opened { Opens uid first (standing served.old 0 (supply (C.left clock.old) (C.gave clock.old)) (supply (S.left salt.old) (S.gave salt.old)) (O.held output.old)) (standing served.new 0 (supply (C.left clock.new) (C.gave clock.new)) (supply (S.left salt.new) (S.gave salt.new)) (O.held output.new)) result }
    ensures counted { OnOk result (served.new.sent ≡ sent served.new.past CONNECTION) }
    ensures waits { OnOk result (awaits_message served.new.past ≡ true) }
    ensures may { OnOk result (MayGoOn O.allowed (O.held output.new) served.new) }
    ensures faults { WriteFaults O.held O.faults output.old output.new result }
{
    served.make_room(output)?;
    let moment = clock.now();
    served.answer(Submission::Load {
        moment,
        loaded: first,
    })?;
    served.make_room(output)?;
    let moment = clock.now();
    let salt = salt.word();
    served.answer(Submission::Event {
        caller: CONNECTION,
        moment,
        salt,
        event: Event::Connect { uid },
    })
}

/// What is handed in for a load: the load, or the number of the cause of its refusal.
fn submission_of(gave: Result<Loaded, LoadRefused>, moment: u64) -> Submission
    requires moment { moment ≤ 2 ^ 62 }
    ensures given { given_of result ≡ loading_given gave moment }
    ensures submittable { IsSubmittable result }
{
    match gave {
        Ok(loaded) => Submission::Load { moment, loaded },
        Err(refused) => Submission::Event {
            caller: LOADER,
            moment,
            salt: 0,
            event: Event::LoadFailed {
                code: refused.code(),
            },
        },
    }
}

/// Loads again, since the newest entry asks for it.
fn load_again<T: Tree, C: Clock, O: Sink>(
    served: &mut Served,
    root: &Text,
    tree: &mut T,
    clock: &mut C,
    output: &mut O,
) -> Result<(), Stopped>
    requires counted { served.old.sent ≡ sent served.old.past CONNECTION }
    requires asked { awaits_load served.old.past ≡ true }
    requires may { MayGoOn O.allowed (O.held output.old) served.old }
    ensures turned { (salt : Supply) → Turns (T.told tree.old) root.now (standing served.old (T.faults tree.old) (supply (C.left clock.old) (C.gave clock.old)) salt (O.held output.old)) (standing served.new (T.faults tree.new) (supply (C.left clock.new) (C.gave clock.new)) salt (O.held output.new)) [] result }
    ensures counted { OnOk result (served.new.sent ≡ sent served.new.past CONNECTION) }
    ensures waits { OnOk result (awaits_message served.new.past ≡ true) }
    ensures may { OnOk result (MayGoOn O.allowed (O.held output.new) served.new) }
    ensures same { T.told tree.new ≡ T.told tree.old }
    ensures faults { WriteFaults O.held O.faults output.old output.new result }
{
    served.make_room(output)?;
    let gave = load(served.alloc(), tree, root);
    let moment = clock.now();
    served.answer(submission_of(gave, moment))
}

/// Hands in what a message asks, and loads again where its entry asks for it.
pub fn take_message<T: Tree, C: Clock, S: Salt, O: Sink>(
    served: &mut Served,
    event: Event,
    root: &Text,
    tree: &mut T,
    clock: &mut C,
    salt: &mut S,
    output: &mut O,
) -> Result<(), Stopped>
    requires counted { served.old.sent ≡ sent served.old.past CONNECTION }
    requires waits { awaits_message served.old.past ≡ true }
    requires stepped { IsStepped event }
    requires may { MayGoOn O.allowed (O.held output.old) served.old }
    ensures turned { (message : Seen) → event ≡ event_of message → Turns (T.told tree.old) root.now (standing served.old (T.faults tree.old) (supply (C.left clock.old) (C.gave clock.old)) (supply (S.left salt.old) (S.gave salt.old)) (O.held output.old)) (standing served.new (T.faults tree.new) (supply (C.left clock.new) (C.gave clock.new)) (supply (S.left salt.new) (S.gave salt.new)) (O.held output.new)) (message ∷ []) result }
    ensures counted { OnOk result (served.new.sent ≡ sent served.new.past CONNECTION) }
    ensures waits { OnOk result (awaits_message served.new.past ≡ true) }
    ensures may { OnOk result (MayGoOn O.allowed (O.held output.new) served.new) }
    ensures same { T.told tree.new ≡ T.told tree.old }
    ensures faults { WriteFaults O.held O.faults output.old output.new result }
{
    served.make_room(output)?;
    let moment = clock.now();
    let salt = salt.word();
    served.answer(Submission::Event {
        caller: CONNECTION,
        moment,
        salt,
        event,
    })?;
    if served.wants_load() {
        load_again(served, root, tree, clock, output)?;
    }
    Ok(())
}

/// Hands in the end of the connection. All that it was sent before is written.
pub fn depart<C: Clock, S: Salt>(
    served: &mut Served,
    clock: &mut C,
    salt: &mut S,
) -> Result<(), Stopped>
    requires counted { served.old.sent ≡ sent served.old.past CONNECTION }
    ensures departs { IsDeparting served.old (supply (C.left clock.old) (C.gave clock.old)) (supply (S.left salt.old) (S.gave salt.old)) served.new (supply (C.left clock.new) (C.gave clock.new)) (supply (S.left salt.new) (S.gave salt.new)) result }
    ensures legal { Legal served.new.past }
{
    let moment = clock.now();
    let salt = salt.word();
    served.answer(Submission::Event {
        caller: CONNECTION,
        moment,
        salt,
        event: Event::Depart,
    })
}
