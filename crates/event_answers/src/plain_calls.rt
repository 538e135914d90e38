// Calls that change nothing: Announce, EnumerateActions and Reload.
ghost use Rattle.std.specs.Prelude.{◌≡◌, List, IfOk};
ghost use Rattle.authority_model.specs.declared.event.Call.{Call as TheCall};
ghost use Rattle.authority_model.specs.declared.journal.Item.{Item};
ghost use Rattle.authority_model.specs.Peers.{accepts_announce};
ghost use Rattle.event_answers.specs.Asked.{AnswersCall, IsLivePeer, IsOfAsked, call_outputs, unchanged};

use crate::answered::{Answered, nothing_changed};
use crate::asking::Asking;
use authority_model::{Answer, ErrorCause, Message, Output, bus_name};
use journal_view::JournalView;
use pk_types::{NoMemory, Text};
use std::alloc::Global;

/// Whether the caller may announce a process: the world lists it, and the caller may speak for its
/// user.
fn accepts<V: JournalView>(view: &V, asking: Asking, pid: u32, start: u64) -> bool
    ensures accepts { IsOfAsked (V.seen view.now) asking result (λ past. accepts_announce past asking.to.caller pid start) }
{
    match view.loaded().world.process(pid, start) {
        Some(row) => asking.may_for(row.uid),
        None => false,
    }
}

/// Answers Announce. That the process was announced is seen by the entry itself.
pub fn announce<V: JournalView>(
    alloc: Global,
    view: &V,
    asking: Asking,
    pid: u32,
    start: u64,
) -> Result<Answered, NoMemory>
    ensures outputs { AnswersCall (V.seen view.now) asking (TheCall.Announce pid start) result }
    ensures change { IfOk result (λ a. a.change ≡ unchanged) }
{
    if !accepts(view, asking, pid, start) {
        return asking.refuse(alloc, ErrorCause::BadAnnounce);
    }
    let name = bus_name(alloc, asking.to.caller)?;
    asking.answer(alloc, Answer::Name(name))
}

/// Answers EnumerateActions: the actions of the load in force, with their texts for a locale.
pub fn enumerate_actions<V: JournalView>(
    alloc: Global,
    view: &V,
    asking: Asking,
    locale: &Text,
) -> Result<Answered, NoMemory>
    ensures outputs { AnswersCall (V.seen view.now) asking (TheCall.EnumerateActions locale.now) result }
    ensures change { IfOk result (λ a. a.change ≡ unchanged) }
{
    let locale = locale.try_copy()?;
    let load = view.counts().loads;
    asking.answer(alloc, Answer::Actions { load, locale })
}

/// Answers Reload, which only uid 0 may call: the loader is asked to load again.
pub fn reload(alloc: Global, asking: Asking) -> Result<Answered, NoMemory>
    ensures outputs { (past : List Item) → IsLivePeer past asking.to.caller asking.peer
        → IfOk result (λ a. a.outputs ≡ call_outputs past asking TheCall.Reload) }
    ensures change { IfOk result (λ a. a.change ≡ unchanged) }
{
    if !asking.is_root() {
        return asking.refuse(alloc, ErrorCause::NotPrivileged);
    }
    let mut outputs = asking.to.reply(alloc, Answer::Done)?;
    outputs.try_push(Output {
        to: 0,
        message: Message::LoadWanted,
    })?;
    Ok(Answered {
        outputs,
        change: nothing_changed(),
    })
}
