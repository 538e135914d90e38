// The authority under the lock.
ghost use Rattle.std.specs.Prelude.{max, ◌≡◌, ◌≤◌, ◌^◌, [], None, Some, IfOk, IfErr, IfSome, OnOk, length};
ghost use mathlib.Core.List.{IsPrefix};
ghost use Rattle.history_lock.specs.declared.machine.EndCause.{EndCause};
ghost use Rattle.history_lock.specs.Calls.{Learned, Admitted, NoneAdmitted};
ghost use Rattle.history_lock.specs.Causes.{known_or};
ghost use Rattle.history_lock.specs.Kinds.{longer_of};
ghost use Rattle.authority_model.specs.Entering.{AreAllowed};
ghost use Rattle.authority_model.specs.Given.{IsStepped, event_given, load_given};
ghost use Rattle.authority_laws.specs.Batches.{in_order};
ghost use Rattle.shared_authority.specs.Journals.{IsJournal, Fits, caller_of};
ghost use Rattle.shared_authority.specs.Passes.{Collects, CollectIsRefused, CollectsNow, HadRoom, Submitted, SubmitIsRefused, SubmitLoadIsRefused, SubmitUnlistIsRefused, Unlisted, own_given};
ghost use Rattle.history_lock.specs.declared.machine.TheConstants.{MOST_PASSES};

use crate::collecting::{
    CollectRefused, Collected, CollectedNow, collected_now, collected_or_refused,
};
use crate::given::Given;
use crate::kept::{Kept, LimitsName};
use crate::operation::Op;
use crate::refused::{
    SubmitLoadRefused, SubmitRefused, SubmitUnlistRefused, load_refused, submit_refused,
    unlist_refused,
};
use authority_core::Authority;
use authority_model::{Event, Limits, Loaded};
use history_lock::{AdmitRefused, EndCause, HistoryLock, Opened, Pass, TableName};
use pk_types::NoMemory;
use std::alloc::Global;
use std::sync::Wait;

/// An authority that many threads share. `L` is the name of its limits and `T` that of the lock's
/// table, so that a pass fits the authority that made it and no other.
///
/// A pass stands for its number, which is the number of a connection; for the part of the journal
/// that its caller knows, with each entry and the load that it names; for a count of passes that it
/// knows to be made; and for the cause of the end, if it knows one. No clause speaks of waiting: a
/// call that waits for the lock returns only if other callers do their part.
#[derive(Drop)]
pub struct Shared<L: LimitsName, T: TableName> {
    lock: HistoryLock<Kept<L>, T>,
}

impl<L: LimitsName, T: TableName> Shared<L, T> {
    /// Puts an authority with an empty journal under a lock, and makes the first pass, whose number
    /// is 0.
    pub fn start(
        alloc: Global,
        limits: Limits,
        opened: Opened<Kept<L>>,
    ) -> Result<(Shared<L, T>, Pass<Kept<L>, T>), NoMemory>
        requires allowed { AreAllowed limits }
        requires limits { limits ≡ L.limits }
        requires table { opened ≡ T.table }
        ensures first { IfOk result (λ (shared, pass). (pass.number ≡ 0)
            × (pass.history ≡ [])
            × (pass.made ≡ 1)
            × (pass.ended ≡ None)) }
    {
        let authority = Authority::start(alloc, limits)?;
        let (lock, pass) = HistoryLock::start(Kept::new(authority), opened)?;
        Ok((Shared { lock }, pass))
    }

    /// Makes a new pass, with the next number. It is new: it is none of those that the old pass
    /// knew, and no entry has it. Both passes know the same then. It takes the lock and no memory.
    ///
    /// # Errors
    /// Full exactly where all 1,048,576 passes were made.
    pub fn admit<R: Wait>(
        &self,
        rt: &R,
        pass: &mut Pass<Kept<L>, T>,
    ) -> Result<Pass<Kept<L>, T>, AdmitRefused>
        ensures ok { IfOk result (λ new. Admitted caller_of IsJournal pass.old new pass.new) }
        ensures full { IfErr result (λ refused. NoneAdmitted caller_of IsJournal pass.old refused pass.new) }
        ensures learned { Learned caller_of IsJournal pass.old pass.new }
    {
        self.lock.admit(rt, pass)
    }

    /// Adds the entry of an event of the pass's connection, and answers its place, counted from 0.
    /// It is the last that the pass then knows.
    ///
    /// # Errors
    /// Ended where the lock has ended, with the kept cause. JournalFull where the journal that the
    /// pass then knows has its limit of entries, or where its counted bytes are at or above the
    /// limit of bytes. NoMemory where memory was refused. The event comes back and no entry is
    /// added.
    pub fn submit<R: Wait>(
        &self,
        rt: &R,
        pass: &mut Pass<Kept<L>, T>,
        moment: u64,
        salt: u128,
        event: Event,
    ) -> Result<u64, SubmitRefused>
        requires event { IsStepped event }
        requires moment { moment ≤ 2 ^ 62 }
        ensures ok { IfOk result (λ place. Submitted pass.old (event_given pass.old.number moment salt event) place pass.new) }
        ensures room { OnOk result (HadRoom L.limits pass.new.history) }
        ensures err { IfErr result (λ refused. SubmitIsRefused L.limits pass.old event refused pass.new) }
        ensures number { pass.new.number ≡ pass.old.number }
        ensures grows { IsPrefix pass.old.history pass.new.history }
    {
        match self.lock.call(
            rt,
            pass,
            Op::Step {
                moment,
                salt,
                event,
            },
        ) {
            Ok(reply) => Ok(reply.into_place()),
            Err(refused) => Err(submit_refused(refused)),
        }
    }

    /// Adds the entry of an event as `submit` does, and at once collects for a second pass as
    /// `collect_if_ready` does: no other entry comes between. Where that one collects the outputs to
    /// the first pass's connection, others that wait for these are not woken.
    ///
    /// # Errors
    /// As for `submit`. Then nothing is collected, and the second pass has learned nothing.
    pub fn submit_and_collect<R: Wait>(
        &self,
        rt: &R,
        pass: &mut Pass<Kept<L>, T>,
        given: Given,
        collector: &mut Pass<Kept<L>, T>,
        of: u32,
    ) -> Result<(u64, CollectedNow), SubmitRefused>
        requires event { IsStepped given.event }
        requires moment { given.moment ≤ 2 ^ 62 }
        ensures ok { IfOk result (λ (place, _). Submitted pass.old (own_given pass.old given) place pass.new) }
        ensures room { OnOk result (HadRoom L.limits pass.new.history) }
        ensures collects { IfOk result (λ (_, now). CollectsNow L.limits collector.old of now collector.new) }
        ensures err { IfErr result (λ refused. SubmitIsRefused L.limits pass.old given.event refused pass.new × (collector.new ≡ collector.old)) }
        ensures number { (pass.new.number ≡ pass.old.number) × (collector.new.number ≡ collector.old.number) }
        ensures grows { IsPrefix pass.old.history pass.new.history × IsPrefix collector.old.history collector.new.history }
    {
        let Given {
            moment,
            salt,
            event,
        } = given;
        match self.lock.call_then(
            rt,
            pass,
            Op::Step {
                moment,
                salt,
                event,
            },
            collector,
            Op::Collect { of },
        ) {
            Ok((reply, then)) => Ok((reply.into_place(), collected_now(then))),
            Err(first) => Err(submit_refused(first)),
        }
    }

    /// Adds the entry of the next load, and answers its place, counted from 0. It is the last that
    /// the pass then knows.
    ///
    /// # Errors
    /// As for `submit`. The load comes back.
    pub fn submit_load<R: Wait>(
        &self,
        rt: &R,
        pass: &mut Pass<Kept<L>, T>,
        moment: u64,
        loaded: Loaded,
    ) -> Result<u64, SubmitLoadRefused>
        requires moment { moment ≤ 2 ^ 62 }
        ensures ok { IfOk result (λ place. Submitted pass.old (load_given pass.old.number moment loaded) place pass.new) }
        ensures room { OnOk result (HadRoom L.limits pass.new.history) }
        ensures err { IfErr result (λ refused. SubmitLoadIsRefused L.limits pass.old loaded refused pass.new) }
        ensures number { pass.new.number ≡ pass.old.number }
        ensures grows { IsPrefix pass.old.history pass.new.history }
    {
        match self.lock.call(rt, pass, Op::Load { moment, loaded }) {
            Ok(reply) => Ok(reply.into_place()),
            Err(refused) => Err(load_refused(refused)),
        }
    }

    /// Adds the entry of a load that is the last one without a process, and answers its place, counted
    /// from 0. It is the last that the pass then knows.
    ///
    /// # Errors
    /// 1 Ended where the lock has ended, with the kept cause; 2 NotListed exactly where the last load
    /// does not list the process; 3 JournalFull and 4 NoMemory as for `submit`. All are said of the
    /// journal that the pass then knows, and no entry is added.
    pub fn submit_unlist<R: Wait>(
        &self,
        rt: &R,
        pass: &mut Pass<Kept<L>, T>,
        moment: u64,
        pid: u32,
        start: u64,
    ) -> Result<u64, SubmitUnlistRefused>
        requires moment { moment ≤ 2 ^ 62 }
        ensures ok { IfOk result (λ place. Unlisted pass.old moment pid start place pass.new) }
        ensures room { OnOk result (HadRoom L.limits pass.new.history) }
        ensures err { IfErr result (λ refused. SubmitUnlistIsRefused L.limits pass.old pid start refused pass.new) }
        ensures number { pass.new.number ≡ pass.old.number }
        ensures grows { IsPrefix pass.old.history pass.new.history }
    {
        match self.lock.call(rt, pass, Op::Unlist { moment, pid, start }) {
            Ok(reply) => Ok(reply.into_place()),
            Err(refused) => Err(unlist_refused(refused)),
        }
    }

    /// Waits until there is an output to a connection that the pass has not collected, or until the
    /// connection has departed, and takes all such outputs. Each pass collects for itself: what one
    /// takes is left for the others. Gone exactly where the connection has departed and nothing to it
    /// is left for this pass. The Collect is an entry of the pass, also where it is Gone.
    ///
    /// # Errors
    /// Ended where the lock has ended, with the kept cause. JournalFull and NoMemory as for `submit`.
    /// No entry is added.
    pub fn collect<R: Wait>(
        &self,
        rt: &R,
        pass: &mut Pass<Kept<L>, T>,
        of: u32,
    ) -> Result<Collected, CollectRefused>
        ensures ok { IfOk result (λ collected. Collects pass.old of collected pass.new) }
        ensures room { OnOk result (HadRoom L.limits pass.new.history) }
        ensures err { IfErr result (λ refused. CollectIsRefused L.limits pass.old refused pass.new) }
        ensures number { pass.new.number ≡ pass.old.number }
        ensures grows { IsPrefix pass.old.history pass.new.history }
    {
        collected_or_refused(self.lock.call_when_ready(rt, pass, Op::Collect { of }))
    }

    /// Is as `collect`, where there is an output to collect, or the connection has departed, or the
    /// lock has ended. Elsewhere it is None, and the pass has learned nothing. It waits for the lock
    /// alone.
    ///
    /// # Errors
    /// As for `collect`.
    pub fn collect_if_ready<R: Wait>(
        &self,
        rt: &R,
        pass: &mut Pass<Kept<L>, T>,
        of: u32,
    ) -> CollectedNow
        ensures collects { CollectsNow L.limits pass.old of result pass.new }
        ensures number { pass.new.number ≡ pass.old.number }
        ensures grows { IsPrefix pass.old.history pass.new.history }
    {
        collected_now(self.lock.call_if_ready(rt, pass, Op::Collect { of }))
    }

    /// Waits until the pass with the number `by` has an output to the connection `of` to collect, or
    /// the connection has departed, or the lock has ended. It has no clause, since none speaks of
    /// waiting.
    pub fn wait_for_outputs<R: Wait>(&self, rt: &R, by: u32, of: u32) {
        self.lock.wait_until_ready(rt, by, &Op::Collect { of });
    }

    /// Ends the lock by a cause that fits what the pass knows. The first cause is kept, and the
    /// answer is the kept one, which the pass then knows. No entry comes from then on. It takes no
    /// memory.
    pub fn end<R: Wait>(&self, rt: &R, pass: &mut Pass<Kept<L>, T>, cause: EndCause) -> EndCause
        requires { Fits L.limits cause pass.old.history pass.old.made }
        ensures fits { Fits L.limits result pass.new.history pass.new.made }
        ensures learned { Learned caller_of IsJournal pass.old pass.new }
        ensures top { pass.new.made ≤ MOST_PASSES }
        ensures knows { pass.new.ended ≡ Some result }
        ensures knew { IfSome pass.old.ended (λ known. result ≡ known) }
    {
        self.lock.end(rt, pass, cause)
    }

    /// The kept cause, where the lock has ended. It fits what the pass then knows. The pass knows the
    /// kept cause then, if there is one, and else that none was kept when it looked. It takes the lock
    /// and no memory.
    pub fn kept_cause<R: Wait>(&self, rt: &R, pass: &mut Pass<Kept<L>, T>) -> Option<EndCause>
        ensures fits { IfSome result (λ cause. Fits L.limits cause pass.new.history pass.new.made) }
        ensures learned { Learned caller_of IsJournal pass.old pass.new }
        ensures top { pass.new.made ≤ MOST_PASSES }
        ensures knows { pass.new.ended ≡ result }
    {
        self.lock.kept_cause(rt, pass)
    }

    /// Two passes tell each other what they know. Both know the longer of the two histories then,
    /// of which the other is a beginning, and neither has an entry more of its own. A kept cause that
    /// one of them knew both know then. It takes neither the lock nor memory.
    pub fn meet(&self, first: &mut Pass<Kept<L>, T>, second: &mut Pass<Kept<L>, T>)
        ensures equal { (first.new.history ≡ second.new.history)
            × (first.new.made ≡ second.new.made)
            × (first.new.ended ≡ second.new.ended) }
        ensures longer { first.new.history ≡ longer_of second.old.history first.old.history }
        ensures made { first.new.made ≡ max first.old.made second.old.made }
        ensures ended { first.new.ended ≡ known_or second.old.ended first.old.ended }
        ensures one_cause { (cause other : EndCause)
            → first.old.ended ≡ Some cause
            → second.old.ended ≡ Some other
            → cause ≡ other }
        ensures top { first.new.made ≤ MOST_PASSES }
        ensures first { Learned caller_of IsJournal first.old first.new }
        ensures second { Learned caller_of IsJournal second.old second.new }
    {
        self.lock.meet(first, second);
    }

    /// Ends the lock's life and gives the authority back. Its journal begins with all that the pass
    /// had seen, and is just that where the pass knew a kept cause. It has no more entries than the
    /// limits allow. It takes no memory.
    pub fn close(self, pass: Pass<Kept<L>, T>) -> Authority
        ensures begins { IsPrefix pass.history (in_order result.history) }
        ensures ended { IfSome pass.ended (λ _. in_order result.history ≡ pass.history) }
        ensures legal { IsJournal (in_order result.history) }
        ensures within { length result.history.entries ≤ L.limits.entries }
    {
        let Shared { lock } = self;
        lock.close(pass).into_authority()
    }
}
