// Whose entries a journal has.
ghost use Rattle.std.specs.Prelude.{◌≡◌, ◌≢◌, ◌<◌, ◌==◌, if◌then◌else◌, ℕ, ◌∷◌, ◌++◌, [], List, None, IfOk, IsTrue, is_some, length};
ghost use Rattle.authority_model.specs.declared.journal.Item.{Item};
ghost use Rattle.authority_model.specs.Lists.{Each};
ghost use Rattle.journal_scan.specs.declared.callers.Place.{Place as ThePlace};
ghost use Rattle.journal_scan.specs.declared.lines.ConnectionLine.{ConnectionLine as TheLine};
ghost use Rattle.journal_scan.specs.Callers.{Belongs, IsOfConnection, IsOfServer};
ghost use Rattle.journal_scan.specs.Lines.{HasOwnNumbers, NumbersDiffer, uid_on};
ghost use Rattle.journal_scan.specs.Sightings.{IsSighting};
ghost use Rattle.journal_scan.specs.Standing.{IsUntaken, place_of, stage_after, with_sighter, with_uid};
ghost use Rattle.journal_scan.specs.Tables.{IsTable};

use crate::lines::ConnectionLine;
use authority_model::{Entry, Event};
use pk_types::NoMemory;
use std::alloc::Global;

/// How far a connection is.
#[derive(Clone, Copy)]
pub(crate) enum Stage {
    /// It has no entry yet.
    Unseen,
    /// It has one, and has not departed.
    Live,
    /// It has departed.
    Departed,
}

impl Stage {
    /// How far it is after an event of its own.
    fn after(self, event: &Event) -> Stage
        ensures stage { result ≡ stage_after self event.now }
    {
        match self {
            Stage::Departed => Stage::Departed,
            Stage::Unseen | Stage::Live => match event {
                Event::Depart => Stage::Departed,
                _ => Stage::Live,
            },
        }
    }
}

/// What is kept of a number.
#[derive(Clone, Copy)]
pub(crate) struct Place {
    /// The uid on its line, if it has one.
    pub(crate) uid: Option<u32>,
    /// Whether it is the number of a sighter.
    pub(crate) looks: bool,
    pub(crate) stage: Stage,
}

impl Place {
    const EMPTY: Place = Place {
        uid: None,
        looks: false,
        stage: Stage::Unseen,
    };

    /// Whether it is of no line and of no sighter.
    fn is_untaken(&self) -> bool
        ensures untaken { IsTrue result → IsUntaken self.now }
    {
        self.uid.is_none() && !self.looks
    }

    /// Whether an entry of this caller may stand here, which is a sighting or not.
    fn admits(self, caller: u32, event: &Event, sighting: bool) -> bool
        ensures belongs { IsTrue result → (lines : List TheLine) (past : List Item) (i : Item) → i.entry.caller ≡ caller
            → i.entry.event ≡ event.now
            → (IsTrue sighting → IsSighting past i)
            → self ≡ place_of lines past caller
            → Belongs lines past i }
    {
        match self.uid {
            None if self.looks => sighting,
            None => is_of_server(caller, event),
            Some(uid) => match self.stage {
                Stage::Unseen => is_connect(uid, event),
                Stage::Live => is_of_connection(event),
                Stage::Departed => false,
            },
        }
    }
}

/// Whether an event connects with this uid.
fn is_connect(uid: u32, event: &Event) -> bool
    ensures connect { IsTrue result → event.now ≡ Event.Connect uid }
{
    match event {
        Event::Connect { uid: given } => *given == uid,
        _ => false,
    }
}

/// Whether an event is handed in by a connection after its Connect.
fn is_of_connection(event: &Event) -> bool
    ensures of { IsTrue result → IsOfConnection event.now }
{
    match event {
        Event::Call { .. }
        | Event::Returned { .. }
        | Event::AgentError { .. }
        | Event::Passed
        | Event::Depart => true,
        _ => false,
    }
}

/// Whether an event of this caller is one of the server.
fn is_of_server(caller: u32, event: &Event) -> bool
    ensures of { IsTrue result → IsOfServer caller event.now }
{
    match event {
        Event::Collect { .. } | Event::Stop => true,
        Event::Load { .. } | Event::LoadFailed { .. } => caller == 0,
        _ => false,
    }
}

/// A place for each connection and each sighter, by its number.
#[derive(Drop)]
pub(crate) struct Callers {
    pub(crate) places: Vec<Place>,
}

impl Callers {
    /// Of no lines and no entries, for so many numbers.
    pub(crate) fn new(alloc: Global, size: usize) -> Result<Callers, NoMemory>
        ensures empty { IfOk result (λ callers. IsTable size (λ c place. place ≡ place_of [] [] c) callers.places.items) }
    {
        let places = vec![in alloc; Place::EMPTY; size]?;
        Ok(Callers { places })
    }

    /// Takes the number and the uid of a line. The number has to be untaken.
    fn mark_number(&mut self, number: u32, uid: u32) -> bool
        ensures marked { IsTrue result → (size : ℕ) (f : ℕ → ThePlace)
            → IsTable size (λ c place. place ≡ f c) self.old.places.items
            → (number < size)
            × IsUntaken (f number)
            × IsTable size (λ c place. place ≡ (if number == c then with_uid uid (f c) else f c)) self.new.places.items }
    {
        let at = number as usize;
        if at >= self.places.len() || !self.places[at].is_untaken() {
            return false;
        }
        self.places[at].uid = Some(uid);
        true
    }

    /// Takes the number of a sighter, which has to be untaken, and not that of the loader.
    fn mark_sighter(&mut self, number: u32) -> bool
        ensures marked { IsTrue result → (size : ℕ) (f : ℕ → ThePlace)
            → IsTable size (λ c place. place ≡ f c) self.old.places.items
            → (number ≢ 0)
            × IsUntaken (f number)
            × IsTable size (λ c place. place ≡ (if number == c then with_sighter (f c) else f c)) self.new.places.items }
    {
        let at = number as usize;
        if at == 0 || at >= self.places.len() || !self.places[at].is_untaken() {
            return false;
        }
        self.places[at].looks = true;
        true
    }

    /// Takes a line. Its numbers have to be untaken.
    fn mark(&mut self, line: ConnectionLine) -> bool
        ensures marked { IsTrue result → (size : ℕ) (lines : List TheLine)
            → IsTable size (λ c place. place ≡ place_of lines [] c) self.old.places.items
            → (line.number < size)
            × HasOwnNumbers lines line
            × IsTable size (λ c place. place ≡ place_of (lines ++ line ∷ []) [] c) self.new.places.items }
    {
        if !self.mark_number(line.number, line.uid) {
            return false;
        }
        match line.sighter {
            Some(sighter) => self.mark_sighter(sighter),
            None => true,
        }
    }

    /// Takes all lines. Their numbers and those of their sighters have to differ.
    pub(crate) fn mark_all(&mut self, lines: &[ConnectionLine]) -> bool
        requires empty { IsTable (length self.old.places.items) (λ c place. place ≡ place_of [] [] c) self.old.places.items }
        ensures differ { IsTrue result → NumbersDiffer lines.now }
        ensures few { IsTrue result → Each (λ l. l.number < length self.old.places.items) lines.now }
        ensures marked { IsTrue result → IsTable (length self.old.places.items) (λ c place. place ≡ place_of lines.now [] c) self.new.places.items }
    {
        for line in lines {
            if !self.mark(*line) {
                return false;
            }
        }
        true
    }

    /// Whether a connection has a line.
    pub(crate) fn has_line(&self, number: u32) -> bool
        ensures line { (size : ℕ) (lines : List TheLine) (past : List Item) → number < size → IsTable size (λ c place. place ≡ place_of lines past c) self.now.places.items → result ≡ is_some (uid_on lines number) }
    {
        match self.places.get(number as usize) {
            Some(place) => place.uid.is_some(),
            None => false,
        }
    }

    /// Takes the next entry, which is a sighting or not. It has to belong to a connection with a line,
    /// in its turn, to the sighter of one, or to the server.
    pub(crate) fn enter(&mut self, entry: &Entry, sighting: bool) -> bool
        ensures belongs { IsTrue result → (size : ℕ) (lines : List TheLine) (past : List Item) (i : Item) → i.entry ≡ entry.now
            → (IsTrue sighting → IsSighting past i)
            → IsTable size (λ c place. place ≡ place_of lines past c) self.old.places.items
            → (entry.now.caller < size) × Belongs lines past i × IsTable size (λ c place. place ≡ place_of lines (i ∷ past) c) self.new.places.items }
    {
        let at = entry.caller as usize;
        if at >= self.places.len() {
            return false;
        }
        let place = self.places[at];
        if !place.admits(entry.caller, &entry.event, sighting) {
            return false;
        }
        self.places[at].stage = place.stage.after(&entry.event);
        true
    }
}
