// A file in memory, and what is kept of one that came back.
ghost use Rattle.std.specs.Prelude.{◌≡◌, ◌||◌, ◌-◌, ◌<◌, ◌≤◌, [], Some, IfOk, OnOk, is_err, nat_le, min, length};
ghost use Rattle.pk_outside.specs.Causes.{HasCause};
ghost use Rattle.memory_outside.specs.Held.{sink_held, sink_calls};
ghost use Rattle.memory_outside.specs.Memory.{fails_next, one_call};
ghost use Rattle.pk_outside.specs.Streams.{WriteGot};

use crate::bytes::ByteSink;
use crate::seats::Seat;
use pk_outside::{Failed, Sink};
use pk_types::{NoMemory, Text};
use std::alloc::Global;

/// A file that a station in memory will make.
#[derive(Drop)]
pub struct FilePlan {
    sink: ByteSink,
    seat: Seat<ReturnedFile>,
    ghost unwritten: { sink_held sink ≡ [] },
    ghost sound: { (sink_calls sink).faults ≡ 0 },
}

impl FilePlan {
    ghost use Rattle.memory_outside.specs.Held.{sink_calls};
    ghost use Rattle.memory_outside.specs.HeldFile.{planned_room, planned_piece, planned_calls, file_path, file_held, file_calls, file_piece, file_room};

    /// A file with room for so many bytes, which takes at most `piece` of them in a call. The
    /// writes with the numbers in `failing` fail; the first write has the number 1.
    ///
    /// # Errors
    /// `NoMemory` alone.
    pub fn new(
        alloc: Global,
        room: usize,
        piece: usize,
        failing: Vec<u64>,
    ) -> Result<Self, NoMemory>
        requires some { 0 < piece }
        ensures room { IfOk result (λ plan. planned_room plan ≡ room) }
        ensures piece { IfOk result (λ plan. planned_piece plan ≡ piece) }
        ensures calls { IfOk result (λ plan. planned_calls plan ≡ record { made = 0; faults = 0; failing = failing.items }) }
    {
        let sink = ByteSink::new(alloc, room, piece, failing)?;
        let seat = Seat::new(alloc)?;
        Ok(FilePlan { sink, seat })
    }

    /// The file, made at this path.
    pub(crate) fn at(self, path: Text) -> ListFile
        ensures path { file_path result ≡ path }
        ensures unwritten { file_held result ≡ [] }
        ensures sound { (file_calls result).faults ≡ 0 }
        ensures calls { file_calls result ≡ planned_calls self }
        ensures piece { file_piece result ≡ planned_piece self }
        ensures room { file_room result ≡ planned_room self }
    {
        let FilePlan { sink, seat } = self;
        ListFile { path, sink, seat }
    }
}

/// A file in memory with a stated room, which takes bytes in pieces as a `ByteSink` does.
///
/// It has the seat in which it is kept when it comes back, so that a station takes it back without
/// memory.
#[derive(Drop)]
pub struct ListFile {
    path: Text,
    sink: ByteSink,
    seat: Seat<ReturnedFile>,
}

impl ListFile {
    ghost use Rattle.memory_outside.specs.HeldFile.{file_path, file_held, file_calls, file_back};

    /// The path at which it was made.
    pub fn path(&self) -> &Text
        ensures path { result.now ≡ file_path self.now }
    {
        &self.path
    }

    /// The bytes that it got.
    pub fn bytes(&self) -> &[u8]
        ensures held { result.now ≡ file_held self.now }
    {
        self.sink.bytes()
    }

    /// How many writes failed.
    pub fn faults(&self) -> u64
        ensures faults { result ≡ (file_calls self.now).faults }
    {
        self.sink.faults()
    }

    /// What is kept of the file when it comes back, and the seat to keep it in.
    pub(crate) fn come_back(self) -> (ReturnedFile, Seat<ReturnedFile>)
        ensures tells { let (file, seat) = result in file_back file ≡ record { path = file_path self; written = file_held self; faults = (file_calls self).faults } }
    {
        let ListFile { path, sink, seat } = self;
        let faults = sink.faults();
        let written = sink.into_bytes();
        let file = ReturnedFile {
            path,
            written,
            faults,
        };
        (file, seat)
    }
}

impl Sink for ListFile {
    ghost use Rattle.std.specs.Prelude.{Some};
    ghost use Rattle.memory_outside.specs.HeldFile.{file_path, file_held, file_calls, file_piece, file_room};

    ghost held = { λ s. Some s.sink.bytes.items };

    ghost path = { λ s. Some s.path };

    ghost faults = { λ s. s.sink.calls.faults };

    fn write(&mut self, bytes: &[u8]) -> Result<usize, Failed>
        requires { 0 < length bytes.now }
        ensures bound { IfOk result (λ n. (0 < n) × (n ≤ length bytes.now)) }
        ensures bytes { WriteGot (Some (file_held self.old)) (Some (file_held self.new)) result bytes.now }
        ensures same { file_path self.new ≡ file_path self.old }
        ensures cause { HasCause (file_calls self.old).faults (file_calls self.new).faults result }
        ensures quiet { OnOk result ((file_calls self.new).faults ≡ (file_calls self.old).faults) }
        ensures most { IfOk result (λ n. n ≡ min (min (length bytes.now) (file_piece self.old)) (file_room self.old - length (file_held self.old))) }
        ensures piece { file_piece self.new ≡ file_piece self.old }
        ensures room { file_room self.new ≡ file_room self.old }
        ensures refused { is_err result ≡ (fails_next (file_calls self.old) || nat_le (file_room self.old) (length (file_held self.old))) }
        ensures counted { file_calls self.new ≡ one_call (file_calls self.old) (is_err result) }
    {
        self.sink.write(bytes)
    }
}

/// What is kept of a file that came back to a station.
#[derive(Drop)]
pub struct ReturnedFile {
    /// The path at which it was made.
    pub path: Text,
    /// What was written to it.
    pub written: Vec<u8>,
    /// How many writes failed.
    pub faults: u64,
}
