// What makes the objects of the outside, and takes them back.
ghost use Rattle.std.specs.Prelude.{◌≡◌, ◌<◌, ℕ, Option, IfOk, OnErr, nat_lt};
ghost use Rattle.pk_outside.specs.Causes.{RoseWhere};
ghost use Rattle.pk_outside.specs.Files.{FileTells};
ghost use Rattle.pk_outside.specs.Links.{EndsTell};
ghost use Rattle.pk_outside.specs.Refusals.{StationCause};
ghost use Rattle.pk_outside.specs.Stations.{StationTold, MakesDoor, Dials, MakesClock, MakesSalt, MakesSights, MakesFile, Shuts, Hangs, TakesFile, has_fault};
ghost use Rattle.pk_outside.specs.Streams.{IsUsedUp};

use crate::{Clock, Door, Ends, Link, Salt, Sights, Sink};
use pk_types::Text;

/// Why a station made no door, no link or no file.
#[derive(Clone, Copy, Debug, PartialEq, Eq)]
pub enum StationRefused {
    /// The station failed, and counted it.
    Failed,
    /// Memory was refused.
    NoMemory,
}

/// Makes doors, links, files, clocks, random words and looks at processes, and takes back all but
/// the last. It counts a fault exactly where it fails, or where what comes back counted one.
pub trait Station: Drop + Send {
    /// The doors that it makes.
    type Door: Door;

    /// The links that it dials.
    type Link: Link;

    /// The clocks that it makes.
    type Clock: Clock;

    /// The givers of random words that it makes.
    type Salt: Salt;

    /// The files that it makes.
    type File: Sink;

    /// The looks at processes that it makes.
    type Sights: Sights;

    /// What it will give and what came back, where they are told.
    ghost told: { Self → Option StationTold };

    /// How often the station has failed.
    ghost faults: { Self → ℕ };

    /// A door for the links of this user at this path; `slot` numbers the doors of one path.
    ///
    /// # Errors
    /// 1 `Failed` where the station failed and counted a fault; 2 `NoMemory`. It then tells what it
    /// told.
    fn door(&mut self, uid: u32, path: &Text, slot: u32) -> Result<Self::Door, StationRefused>
        ensures door { IfOk result (λ door. MakesDoor uid path.now slot (told self.old) (told self.new) (Self.Door.told door)) }
        ensures owner { IfOk result (λ door. Self.Door.owner door ≡ uid) }
        ensures count { IfOk result (λ door. Self.Door.faults door ≡ 0) }
        ensures err { OnErr result (told self.new ≡ told self.old) }
        ensures cause { StationCause (faults self.old) (faults self.new) result };

    /// A link to whoever listens at this path.
    ///
    /// # Errors
    /// 1 `Failed` where the station failed and counted a fault; 2 `NoMemory`. It then tells what it
    /// told.
    fn dial(&mut self, path: &Text) -> Result<Self::Link, StationRefused>
        ensures link { IfOk result (λ link. Dials path.now (told self.old) (told self.new) (Self.Link.origin link)) }
        ensures err { OnErr result (told self.new ≡ told self.old) }
        ensures cause { StationCause (faults self.old) (faults self.new) result };

    /// A clock.
    fn clock(&mut self) -> Self::Clock
        ensures clock { MakesClock (told self.old) (told self.new) (Self.Clock.left result) (Self.Clock.gave result) }
        ensures count { faults self.new ≡ faults self.old };

    /// A giver of random words.
    fn salt(&mut self) -> Self::Salt
        ensures salt { MakesSalt (told self.old) (told self.new) (Self.Salt.left result) (Self.Salt.gave result) }
        ensures count { faults self.new ≡ faults self.old };

    /// Looks at processes, with the count 0.
    fn sights(&mut self) -> Self::Sights
        ensures sights { MakesSights (told self.old) (told self.new) (Self.Sights.left result) (Self.Sights.gave result) }
        ensures sound { Self.Sights.faults result ≡ 0 }
        ensures count { faults self.new ≡ faults self.old };

    /// A file that is made anew at this path, to which nothing was written.
    ///
    /// # Errors
    /// 1 `Failed` where the station failed and counted a fault; 2 `NoMemory`. It then tells what it
    /// told.
    fn file(&mut self, path: &Text) -> Result<Self::File, StationRefused>
        ensures file { IfOk result (λ file. MakesFile path.now (told self.old) (told self.new) (Self.File.path file) (Self.File.held file)) }
        ensures unwritten { IfOk result (λ file. IsUsedUp (Self.File.held file)) }
        ensures count { IfOk result (λ file. Self.File.faults file ≡ 0) }
        ensures err { OnErr result (told self.new ≡ told self.old) }
        ensures cause { StationCause (faults self.old) (faults self.new) result };

    /// Takes a door back with its clock and its salt, and counts a fault exactly where the door
    /// counted one. It takes no memory.
    fn shut(&mut self, door: Self::Door, clock: Self::Clock, salt: Self::Salt)
        ensures shut { Shuts (told self.old) (told self.new) (Self.Door.told door) (Self.Clock.gave clock) (Self.Salt.gave salt) }
        ensures count { RoseWhere (nat_lt 0 (Self.Door.faults door)) (faults self.old) (faults self.new) };

    /// Takes a dialled link back, and counts a fault exactly where one of its two directions
    /// counted one. It takes no memory.
    fn hang(&mut self, ends: Ends<Self::Link>)
        ensures hung { Hangs (told self.old) (told self.new) (EndsTell (Self.Link.In.origin ends.input)
            (Self.Link.In.left ends.input) (Self.Link.Out.held ends.output) (Self.Link.In.faults ends.input) (Self.Link.Out.faults ends.output)) }
        ensures count { RoseWhere (has_fault (Self.Link.In.faults ends.input) (Self.Link.Out.faults ends.output)) (faults self.old) (faults self.new) };

    /// Takes a file back, and counts a fault exactly where the file counted one. It takes no memory.
    fn filed(&mut self, file: Self::File)
        ensures filed { TakesFile (told self.old) (told self.new) (FileTells (Self.File.path file) (Self.File.held file) (Self.File.faults file)) }
        ensures count { RoseWhere (nat_lt 0 (Self.File.faults file)) (faults self.old) (faults self.new) };
}
