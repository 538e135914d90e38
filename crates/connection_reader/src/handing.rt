// What is handed in, and what a refusal does.
ghost use Rattle.std.specs.Prelude.{◌≤◌, ◌^◌, IfOk, IfErr, is_err};
ghost use Rattle.authority_model.specs.Given.{IsStepped};
ghost use Rattle.shared_authority.specs.Passes.{Submitted, SubmitIsRefused, own_given};
ghost use Rattle.connection_lookout.specs.Watching.{Looks, watch_of};
ghost use Rattle.connection_reader.specs.Hands.{HandsIn};
ghost use Rattle.pk_outside.specs.Causes.{RoseWhere};

use crate::common::Common;
use authority_model::Event;
use connection_lookout::{SightFailed, look};
use connection_writer::{Begun, submit_at_desk};
use history_lock::{EndCause, Pass, TableName};
use pk_outside::{Clock, Salt, Sights, Sink};
use shared_authority::{Given, Kept, LimitsName, SubmitRefused};
use std::sync::Wait;

/// Who writes what an entry of the connection's own sends to it.
#[derive(Clone, Copy)]
pub enum Answerer {
    /// The reading half, at once. The writing half is not woken for it.
    Reader,
    /// The writing half, which the entry wakes.
    Writer,
}

/// Adds the entry of an event of the pass's connection, and has its answer written.
///
/// # Errors
/// As for `Shared::submit`.
fn submit<L: LimitsName, T: TableName, R: Wait, O: Sink, B: Begun>(
    common: &Common<'_, '_, L, T, O, B, R>,
    pass: &mut Pass<Kept<L>, T>,
    given: Given,
    answerer: Answerer,
) -> Result<u64, SubmitRefused>
    requires event { IsStepped given.event }
    requires moment { given.moment ≤ 2 ^ 62 }
    ensures ok { IfOk result (λ place. Submitted pass.old (own_given pass.old given) place pass.new) }
    ensures err { IfErr result (λ refused. SubmitIsRefused L.limits pass.old given.event refused pass.new) }
{
    let rt = common.rt;
    match answerer {
        Answerer::Reader => submit_at_desk(rt, common.shared, common.desk, pass, given),
        Answerer::Writer => {
            let Given {
                moment,
                salt,
                event,
            } = given;
            common.shared.submit(rt, pass, moment, salt, event)
        }
    }
}

/// Looks at the process that an event names before it is handed in, as `connection_lookout::look` says.
///
/// # Errors
/// The look failed, and was counted.
pub fn look_before<L: LimitsName, T: TableName, R: Wait, G: Sights, O: Sink, B: Begun>(
    common: &Common<'_, '_, L, T, O, B, R>,
    pass: &mut Pass<Kept<L>, T>,
    sighter: &mut Option<Pass<Kept<L>, T>>,
    sights: &mut G,
    event: &Event,
) -> Result<(), SightFailed>
    ensures looks { Looks event.now pass.old pass.new (watch_of sighter.old (G.left sights.old) (G.gave sights.old))
        (watch_of sighter.new (G.left sights.new) (G.gave sights.new)) (is_err result) }
    ensures cause { RoseWhere (is_err result) (G.faults sights.old) (G.faults sights.new) }
{
    look(common.rt, common.shared, pass, sighter, sights, event)
}

/// Hands in an event of the pass's connection, with one reading of the clock and one random word, and
/// has its answer written at the desk.
///
/// # Errors
/// Where the event is refused the lock is ended by the cause of the refusal. The answer is the kept
/// cause, which the pass then knows.
pub fn hand_in<L: LimitsName, T: TableName, R: Wait, C: Clock, S: Salt, O: Sink, B: Begun>(
    common: &Common<'_, '_, L, T, O, B, R>,
    pass: &mut Pass<Kept<L>, T>,
    clock: &mut C,
    salt: &mut S,
    event: Event,
    answerer: Answerer,
) -> Result<(), EndCause>
    requires stepped { IsStepped event }
    ensures hands { HandsIn L.limits event pass.old pass.new (C.gave clock.old) (C.gave clock.new) (S.gave salt.old) (S.gave salt.new) result }
{
    let moment = clock.now();
    let salt = salt.word();
    let given = Given {
        moment,
        salt,
        event,
    };
    match submit(common, pass, given, answerer) {
        Ok(_) => Ok(()),
        Err(refused) => Err(common.shared.end(common.rt, pass, refused.cause())),
    }
}
