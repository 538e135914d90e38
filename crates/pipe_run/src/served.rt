// The authority of one connection, and what it was sent.
ghost use Rattle.std.specs.Prelude.{◌≡◌, ◌++◌, [], IfOk, OnOk};
ghost use Rattle.pk_outside.specs.Allowing.{MayGo};
ghost use Rattle.authority_model.specs.Entering.{AreAllowed};
ghost use Rattle.authority_model.specs.Given.{event_given, load_given};
ghost use Rattle.authority_model.specs.Items.{sent};
ghost use Rattle.authority_model.specs.Legal.{Legal};
ghost use Rattle.authority_model.specs.Lists.{any_of};
ghost use Rattle.pipe_run.specs.Answered.{Answers, IsReady, IsSubmittable, IsWrittenOut, OnlyMemory, OnlyWriting, Submits, WriteFaults, fresh, given_of};
ghost use Rattle.pipe_run.specs.Bytes.{newest_bytes, sent_before};
ghost use Rattle.pipe_run.specs.declared.served.Submission.TheVariants as submission;
ghost use Rattle.pipe_run.specs.Handed.{is_load_wanted, newest_wants_load};

use crate::ends::Stopped;
use crate::writing::put_outputs;
use answer_outbox::Outbox;
use authority_core::Authority;
use authority_model::{Entry, Event, Limits, Loaded, Message, Output};
use pk_outside::Sink;
use pk_types::NoMemory;
use std::alloc::Global;
use std::marker::Model;

/// The number of the connection that is served.
pub const CONNECTION: u32 = 1;

/// The number by which loads are handed in.
pub const LOADER: u32 = 0;

/// What is handed in.
#[derive(Drop)]
pub enum Submission {
    /// An event.
    Event {
        caller: u32,
        moment: u64,
        salt: u128,
        event: Event,
    },
    /// A load, which is the loader's.
    Load {
        moment: u64,
        loaded: Loaded,
    },
}

/// The authority of one connection, with how many messages this was sent, and those of their bytes
/// that were not written yet.
#[derive(Drop)]
pub struct Served {
    alloc: Global,
    authority: Authority,
    sent: u32,
    outbox: Outbox,
}

impl Model for Served {
    ghost use Rattle.authority_model.specs.Items.{items_of};
    ghost use Rattle.pipe_run.specs.Answered.{Service};

    ghost Value = { Service };

    ghost view = { λ s. record { limits = s.authority.limits; past = items_of s.authority.history; sent = s.sent; unsent = s.outbox } };
}

/// Whether an output asks for a load.
fn is_load_wanted(output: &Output) -> bool
    ensures exact { result ≡ is_load_wanted output.now.message }
{
    match output.message {
        Message::LoadWanted => true,
        _ => false,
    }
}

/// Whether one of these outputs asks for a load.
fn wants_load(outputs: &[Output]) -> bool
    ensures exact { result ≡ any_of (λ o. is_load_wanted o.message) outputs.now }
{
    outputs.iter().any(|output| is_load_wanted(output))
}

impl Served {
    /// The authority of a connection, with an empty journal.
    pub fn start(alloc: Global, limits: Limits) -> Result<Served, NoMemory>
        requires limits { AreAllowed limits }
        ensures fresh { IfOk result (λ served. served ≡ fresh limits) }
    {
        let authority = Authority::start(alloc, limits)?;
        Ok(Served {
            alloc,
            authority,
            sent: 0,
            outbox: Outbox::new(alloc),
        })
    }

    /// Where memory is taken from.
    pub fn alloc(&self) -> Global {
        self.alloc
    }

    /// Hands in an event.
    fn submit_event(
        &mut self,
        caller: u32,
        moment: u64,
        salt: u128,
        event: Event,
    ) -> Result<(), Stopped>
        requires submittable { IsSubmittable (submission.Event caller moment salt event) }
        ensures submits { Submits self.old (event_given caller moment salt event) self.new result }
        ensures legal { Legal self.new.past }
    {
        match self.authority.step(caller, moment, salt, event) {
            Ok(_) => Ok(()),
            Err(refused) => {
                let (halt, event) = refused.into_parts();
                drop(event);
                Err(Stopped::from(halt))
            }
        }
    }

    /// Hands in a load.
    fn submit_load(&mut self, moment: u64, loaded: Loaded) -> Result<(), Stopped>
        requires submittable { IsSubmittable (submission.Load moment loaded) }
        ensures submits { Submits self.old (load_given LOADER moment loaded) self.new result }
        ensures legal { Legal self.new.past }
    {
        match self.authority.load(LOADER, moment, loaded) {
            Ok(_) => Ok(()),
            Err(refused) => {
                let (halt, loaded) = refused.into_parts();
                drop(loaded);
                Err(Stopped::from(halt))
            }
        }
    }

    /// Hands something in.
    fn submit(&mut self, submission: Submission) -> Result<(), Stopped>
        requires submittable { IsSubmittable submission }
        ensures submits { Submits self.old (given_of submission) self.new result }
        ensures legal { Legal self.new.past }
    {
        match submission {
            Submission::Event {
                caller,
                moment,
                salt,
                event,
            } => self.submit_event(caller, moment, salt, event),
            Submission::Load { moment, loaded } => self.submit_load(moment, loaded),
        }
    }

    /// Keeps what the newest entry sends to the connection, so that it is written.
    fn keep_newest(&mut self) -> Result<(), Stopped>
        requires counted { self.old.sent ≡ sent_before CONNECTION self.old.past }
        ensures limits { self.new.limits ≡ self.old.limits }
        ensures past { self.new.past ≡ self.old.past }
        ensures sent { OnOk result (self.new.sent ≡ sent self.new.past CONNECTION) }
        ensures unsent { OnOk result (self.new.unsent ≡ self.old.unsent ++ newest_bytes CONNECTION self.old.past) }
        ensures refused { OnlyMemory result }
    {
        let history = self.authority.history();
        let Some(entry) = history.entries.as_slice().last() else {
            return Ok(());
        };
        let outputs = entry.outputs.as_slice();
        self.sent = put_outputs(self.alloc, history, outputs, self.sent, &mut self.outbox)?;
        Ok(())
    }

    /// Hands something in, and keeps what its entry sends to the connection, so that it is written.
    pub fn answer(&mut self, submission: Submission) -> Result<(), Stopped>
        requires submittable { IsSubmittable submission }
        requires counted { self.old.sent ≡ sent self.old.past CONNECTION }
        ensures answers { Answers self.old (given_of submission) self.new result }
        ensures legal { Legal self.new.past }
    {
        self.submit(submission)?;
        self.keep_newest()
    }

    /// Writes all that the connection was sent.
    pub fn write_out<O: Sink>(&mut self, output: &mut O) -> Result<(), Stopped>
        requires may { MayGo O.allowed (O.held output.old) self.old.unsent }
        ensures written { IsWrittenOut self.old (O.held output.old) self.new (O.held output.new) }
        ensures all { OnOk result (self.new.unsent ≡ []) }
        ensures faults { WriteFaults O.held O.faults output.old output.new result }
        ensures refused { OnlyWriting result }
    {
        self.outbox.write_out(output)?;
        Ok(())
    }

    /// Writes all that the connection was sent, where it has become much, and where the journal is
    /// full: what is handed in next is refused then, and ends the run.
    pub fn make_room<O: Sink>(&mut self, output: &mut O) -> Result<(), Stopped>
        requires may { MayGo O.allowed (O.held output.old) self.old.unsent }
        ensures written { IsWrittenOut self.old (O.held output.old) self.new (O.held output.new) }
        ensures ready { OnOk result (IsReady self.new) }
        ensures faults { WriteFaults O.held O.faults output.old output.new result }
        ensures refused { OnlyWriting result }
    {
        if self.outbox.is_long() || self.authority.is_full() {
            return self.write_out(output);
        }
        Ok(())
    }

    /// Whether the newest entry asks for a load.
    pub fn wants_load(&self) -> bool
        ensures exact { result ≡ newest_wants_load self.now.past }
    {
        match self.authority.history().entries.as_slice().last() {
            Some(entry) => wants_load(entry.outputs.as_slice()),
            None => false,
        }
    }
}
