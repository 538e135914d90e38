// What a Collect takes.
ghost use Rattle.std.specs.Prelude.{◌≡◌, ◌+◌, ◌≤◌, drop, slice_get, take, IfOk};
ghost use Rattle.std.specs.Option.{option_copied};
ghost use Rattle.authority_model.specs.Items.{items_of, sent};
ghost use Rattle.authority_model.specs.Sent.{batch, collected, sent_to};
ghost use Rattle.authority_laws.specs.Batches.{load_of, greatest_load};
ghost use Rattle.peer_book.specs.Book.{IsPeersOf};
ghost use Rattle.authority_core.specs.Collecting.{numbered_output};
ghost use Rattle.pk_types.specs.declared.decimals.TheConstants.{MAX_NUMBER};

use crate::copies::copy_of;
use crate::halt::{Fullness, Halt};
use authority_model::{Answer, History, Loaded, LoadedList, Message, Output, OutputList};
use peer_book::PeerBook;
use pk_types::{List, NoMemory, TryCopy};
use std::alloc::Global;

/// What a Collect takes: the outputs to a connection that the caller has not collected yet.
///
/// Where there is none, the connection has departed, and nothing more comes.
#[derive(Drop)]
pub struct Batch {
    /// The number of the first of the outputs among those to the connection, counted from 1.
    pub from: u32,
    /// The outputs, in the order of the journal.
    pub outputs: OutputList,
    /// Copies of the journal's first loads, up to the greatest that these outputs name.
    pub loads: LoadedList,
}

/// Why a Collect was refused. Nothing has changed.
#[derive(Clone, Copy, Debug, PartialEq, Eq)]
pub enum CollectStepRefused {
    /// The journal has reached its limit of entries or of bytes. It has this many.
    JournalFull { entries: u64, bytes: u64 },
    NoMemory,
}

impl CollectStepRefused {
    ghost use Rattle.authority_core.specs.Refusals.{halt_of_collect};

    /// Why nothing was added.
    pub fn halt(self) -> Halt
        ensures halt { result ≡ halt_of_collect self }
    {
        match self {
            CollectStepRefused::JournalFull { entries, bytes } => Halt::Full(Fullness {
                entries,
                bytes,
            }),
            CollectStepRefused::NoMemory => Halt::NoMemory,
        }
    }
}

/// The output of a journal that has this number among those to a connection, counted from 1, and
/// `None` exactly where the number is 0 or there are fewer.
pub fn output_to<'a>(
    history: &'a History,
    peers: &PeerBook,
    caller: u32,
    number: u32,
) -> Option<&'a Output>
    requires peers { IsPeersOf (items_of history.now) peers.now }
    ensures output { option_copied result ≡ numbered_output (items_of history.now) caller number }
{
    let (place, output) = peers.place(caller, number)?;
    let entry = history.entries.get(place as usize)?;
    entry.outputs.get(output as usize)
}

/// Copies of the outputs of a journal to a connection, without so many of the first of them.
fn outputs_from(
    alloc: Global,
    history: &History,
    peers: &PeerBook,
    caller: u32,
    first: u32,
) -> Result<OutputList, NoMemory>
    requires peers { IsPeersOf (items_of history.now) peers.now }
    requires first { first ≤ sent (items_of history.now) caller }
    ensures outputs { IfOk result (λ outputs. outputs ≡ drop first (sent_to (items_of history.now) caller)) }
{
    let count = peers.sent_count(caller);
    let mut outputs = List::new(alloc);
    for before in first..count {
        let Some(output) = output_to(history, peers, caller, before + 1) else {
            unreachable!();
        };
        outputs.try_push(copy_of(output)?)?;
    }
    Ok(outputs)
}

/// The number of the load that an output names, or 0.
fn load_named(output: &Output) -> u32
    ensures load { result ≡ load_of output.now }
{
    match &output.message {
        Message::Reply {
            answer: Answer::Actions { load, .. },
            ..
        } => *load,
        _ => 0,
    }
}

/// The greatest number of a load that some outputs name, or 0.
fn greatest_named(outputs: &[Output]) -> u32
    ensures greatest { result ≡ greatest_load outputs.now }
{
    let mut greatest = 0;
    for output in outputs {
        greatest = load_named(output).max(greatest);
    }
    greatest
}

/// Copies of the first loads, up to this number.
fn first_loads(alloc: Global, loads: &[Loaded], number: u32) -> Result<LoadedList, NoMemory>
    ensures loads { IfOk result (λ copies. copies ≡ take number loads.now) }
{
    let count = loads.len().min(number as usize);
    let mut copies = List::new(alloc);
    for loaded in &loads[..count] {
        copies.try_push(loaded.try_copy()?)?;
    }
    Ok(copies)
}

/// What one connection collects of the outputs of a journal to another.
pub fn batch_of(
    alloc: Global,
    history: &History,
    peers: &PeerBook,
    caller: u32,
    of: u32,
) -> Result<Batch, NoMemory>
    requires peers { IsPeersOf (items_of history.now) peers.now }
    requires few { collected (items_of history.now) caller of + 1 ≤ MAX_NUMBER }
    ensures from { IfOk result (λ b. b.from ≡ collected (items_of history.now) caller of + 1) }
    ensures outputs { IfOk result (λ b. b.outputs ≡ batch (items_of history.now) caller of) }
    ensures loads { IfOk result (λ b. b.loads ≡ take (greatest_load b.outputs) history.now.loads) }
{
    let collected = peers.collected(caller, of);
    let outputs = outputs_from(alloc, history, peers, of, collected)?;
    let number = greatest_named(outputs.as_slice());
    let loads = first_loads(alloc, history.loads.as_slice(), number)?;
    Ok(Batch {
        from: collected + 1,
        outputs,
        loads,
    })
}
