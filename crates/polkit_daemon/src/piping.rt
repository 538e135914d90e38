// The command that serves one connection over the input and the output.
ghost use Rattle.std.specs.Prelude.{◌≡◌};
ghost use Rattle.authority_model.specs.Entering.{AreAllowed};
ghost use Rattle.pipe_run.specs.Ends.{traffic};
ghost use Rattle.pipe_run.specs.Promises.{MayPipe};
ghost use Rattle.pipe_run.specs.Supplies.{supply};
ghost use Rattle.polkit_daemon.specs.Faults.{InputFaults, OutputFaults};
ghost use Rattle.polkit_daemon.specs.Piped.{PipesFrom, status_of};

use crate::status::Status;
use authority_core::Limits;
use pipe_run::{PipeEnd, run_pipe};
use pk_outside::{Clock, Salt, Sink, Source, Tree};
use pk_types::Text;
use policy_load::load;
use std::alloc::Global;

/// How the end of a run ends the command.
fn status_of(end: PipeEnd) -> Status
    ensures status { result ≡ status_of end }
{
    match end {
        PipeEnd::Done => Status::Done,
        PipeEnd::ReadFault => Status::ReadFault,
        PipeEnd::WriteFault => Status::WriteFault,
        PipeEnd::Full(full) => Status::full(full),
        PipeEnd::BadBytes { kind, at } => Status::BadBytes { kind, at },
        PipeEnd::Truncated { rest } => Status::Truncated { rest },
        PipeEnd::NoMemory => Status::NoMemory,
    }
}

/// Serves one connection of this user over the input and the output: the messages of the input are
/// answered one after another, and what the connection is sent is written, until the input ends or
/// the first fault comes. What was answered before a fault is written; only where memory is refused
/// the last of it may lack.
///
/// The first load is what the tree gives below the root. Where a message asks for a load, the root is
/// loaded again. All that is handed in takes a reading of the clock, and the connection's own a
/// random word.
///
/// # Errors
/// `TreeFault` only where the tree counted a fault in the first load, and `LoadRefused` exactly where
/// this is refused by a limit or a table, and then nothing is read, written or taken; `BadBytes`
/// exactly where a message has a fault, with the first one and its place; `Truncated` exactly where
/// the input ends inside a message; `JournalFull` exactly where a further entry was due and the
/// journal had reached its limit of entries or of counted bytes; `ReadFault` and `WriteFault` exactly
/// where the input or the output counted a fault, which its last call did; `NoMemory`, which may come
/// in place of any other answer.
pub fn pipe<T: Tree, C: Clock, S: Salt, I: Source, O: Sink>(
    alloc: Global,
    uid: u32,
    root: &Text,
    limits: Limits,
    tree: &mut T,
    clock: &mut C,
    salt: &mut S,
    input: &mut I,
    output: &mut O,
) -> Status
    requires limits { AreAllowed limits }
    // Each prefix of what the connection is sent in some legal history may be written.
    requires may { MayPipe O.allowed (O.held output.old) }

    // What is written is the messages that the connection is sent in the legal history that the bytes
    // read make, as far as the status says.
    ensures run { PipesFrom (record { uid = uid; root = root.now; told = T.told tree.old; limits = limits }) (T.faults tree.old) (T.faults tree.new)
        (traffic (I.left input.old) (I.left input.new) (I.ended input.new) (O.held output.old) (O.held output.new) (supply (C.left clock.old) (C.gave clock.old)) (supply (C.left clock.new) (C.gave clock.new)) (supply (S.left salt.old) (S.gave salt.old)) (supply (S.left salt.new) (S.gave salt.new))) result }

    // A fault of the outside is told exactly where the object counted it, by its last call.
    ensures read { InputFaults I.left I.faults input.old input.new result }
    ensures write { OutputFaults O.held O.faults output.old output.new result }
{
    match load(alloc, tree, root) {
        Ok(first) => status_of(run_pipe(
            alloc, uid, root, limits, first, tree, clock, salt, input, output,
        )),
        Err(refused) => Status::of_refused(refused),
    }
}
