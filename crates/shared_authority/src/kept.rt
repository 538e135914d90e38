// The authority as the machine under the lock.
ghost use Rattle.std.specs.Prelude.{◌≡◌, ◌≤◌, [], length};
ghost use Rattle.authority_model.specs.Entering.{AreAllowed};
ghost use Rattle.authority_model.specs.declared.journal.TheConstants.{MAX_ENTRIES};
ghost use Rattle.authority_laws.specs.Batches.{in_order};
ghost use Rattle.authority_core.specs.Refusals.{halt_of_unlist};
ghost use Rattle.shared_authority.specs.Machines.{refusal_of};

use crate::operation::{Op, Refusal, Reply};
use crate::waking::{others_woken_by, woken_by};
use authority_core::{Authority, UnlistRefused};
use authority_model::Item;
use history_lock::{Machine, Woken};
use std::marker::{Brand, PhantomData};

/// The greatest moment that can be handed in, in seconds: 2^62.
const GREATEST_MOMENT: u64 = 1 << 62;

/// Which limits an authority has. A program picks them once, by a call of a function that is
/// generic in the name.
pub trait LimitsName {
    ghost use Rattle.authority_model.specs.declared.journal.Limits.{Limits};

    /// The limits.
    ghost limits: { Limits };
}

impl LimitsName for Brand {
    ghost limits = { record { entries = 0; bytes = 0 } };
}

/// An authority whose limits are named `L`, and whose journal has no more entries than they allow.
#[derive(Drop)]
pub struct Kept<L: LimitsName> {
    authority: Authority,
    of: PhantomData<L>,
    ghost named: { authority.limits ≡ L.limits },
    ghost few: { L.limits.entries ≤ MAX_ENTRIES },
    ghost within: { length authority.history.entries ≤ L.limits.entries },
}

impl<L: LimitsName> Kept<L> {
    /// Keeps an authority whose journal is empty.
    pub(crate) fn new(authority: Authority) -> Kept<L>
        requires named { authority.limits ≡ L.limits }
        requires allowed { AreAllowed L.limits }
        requires empty { authority.history.entries ≡ [] }
        ensures { result.authority ≡ authority }
    {
        Kept {
            authority,
            of: PhantomData,
        }
    }

    /// The authority.
    pub(crate) fn into_authority(self) -> Authority
        ensures same { result ≡ self.authority }
        ensures within { length result.history.entries ≤ L.limits.entries }
    {
        let Kept { authority, of: _ } = self;
        authority
    }
}

impl<L: LimitsName> Machine for Kept<L> {
    ghost use Rattle.authority_laws.specs.Batches.{in_order};
    ghost use Rattle.shared_authority.specs.Journals.{IsJournal, Fits, caller_of};
    ghost use Rattle.shared_authority.specs.Machines.{IsReady, GivesWithin, Refuses, awaited};
    ghost use Rattle.shared_authority.specs.Lasting.{empty_journal, journals_short, fits_lasts};

    type Op = Op;

    type Reply = Reply;

    type Refusal = Refusal;

    type Item = Item;

    ghost entries = { λ kept. in_order kept.authority.history };

    ghost caller_of = { caller_of };

    ghost legal = { IsJournal };

    ghost is_ready = { IsReady };

    ghost gives = { GivesWithin L.limits };

    ghost refuses = { λ n op list refusal. Refuses L.limits op list refusal };

    ghost awaited = { awaited };

    ghost fits = { Fits L.limits };

    fn apply(&mut self, caller: u32, op: Op) -> Result<Reply, (Refusal, Op)> {
        match op {
            Op::Step {
                moment,
                salt,
                event,
            } => match self.authority.step(caller, moment, salt, event) {
                Ok(place) => Ok(Reply::At(place)),
                Err(refused) => {
                    let (halt, event) = refused.into_parts();
                    let back = Op::Step {
                        moment,
                        salt,
                        event,
                    };
                    Err((Refusal::Halted(halt), back))
                }
            },
            Op::Load { moment, loaded } => match self.authority.load(caller, moment, loaded) {
                Ok(place) => Ok(Reply::At(place)),
                Err(refused) => {
                    let (halt, loaded) = refused.into_parts();
                    Err((Refusal::Halted(halt), Op::Load { moment, loaded }))
                }
            },
            Op::Unlist { moment, pid, start } => {
                match self.authority.unlist(caller, moment, pid, start) {
                    Ok(place) => Ok(Reply::At(place)),
                    Err(refused) => Err((
                        unlist_refusal(refused),
                        Op::Unlist { moment, pid, start },
                    )),
                }
            }
            Op::Collect { of } => match self.authority.collect(caller, of) {
                Ok(batch) => Ok(Reply::Batch(batch)),
                Err(refused) => Err((Refusal::Halted(refused.halt()), Op::Collect { of })),
            },
        }
    }

    fn ready(&self, caller: u32, op: &Op) -> bool {
        match op {
            Op::Step {
                moment,
                salt: _,
                event,
            } => event.is_stepped() && *moment <= GREATEST_MOMENT,
            Op::Load { moment, loaded: _ } => *moment <= GREATEST_MOMENT,
            Op::Unlist {
                moment,
                pid: _,
                start: _,
            } => *moment <= GREATEST_MOMENT,
            Op::Collect { of } => self.authority.ready(caller, *of),
        }
    }

    fn awaits(op: &Op) -> u32 {
        match op {
            Op::Collect { of } => *of,
            Op::Step { .. } | Op::Load { .. } | Op::Unlist { .. } => 0,
        }
    }

    fn woken(&self) -> Woken {
        match self.authority.history().entries.as_slice().last() {
            None => Woken::nobody(),
            Some(entry) => woken_by(entry),
        }
    }

    fn woken_others(&self) -> Woken {
        match self.authority.history().entries.as_slice().last() {
            None => Woken::nobody(),
            Some(entry) => others_woken_by(entry),
        }
    }

    ghost begins = { empty_journal };

    ghost bounded = { journals_short };

    ghost lasts = { fits_lasts L.limits };
}

/// Why a process was not taken out of the last load.
fn unlist_refusal(refused: UnlistRefused) -> Refusal
    ensures { result ≡ refusal_of (halt_of_unlist refused) }
{
    match refused.halt() {
        Some(halt) => Refusal::Halted(halt),
        None => Refusal::NotListed,
    }
}
