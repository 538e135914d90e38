// Keeps the messages of outputs, so that they are written.
ghost use Rattle.std.specs.Prelude.{◌≡◌, ◌+◌, ◌++◌, ◌∷◌, [], IfOk, OnOk};
ghost use Rattle.authority_model.specs.Items.{count_to};
ghost use Rattle.pipe_run.specs.Bytes.{AreSendableTo, output_bytes};

use crate::served::CONNECTION;
use answer_outbox::Outbox;
use authority_model::{History, Output};
use pk_types::NoMemory;
use std::alloc::Global;

/// Keeps the message of an output, if it goes to the connection, which was sent so many before.
/// The answer is how many it was sent now.
fn put_own(
    alloc: Global,
    history: &History,
    output: &Output,
    sent: u32,
    outbox: &mut Outbox,
) -> Result<u32, NoMemory>
    requires sendable { AreSendableTo CONNECTION (output.now ∷ []) }
    ensures put { OnOk result (outbox.new ≡ outbox.old ++ output_bytes history.now.loads CONNECTION sent (output.now ∷ [])) }
    ensures count { IfOk result (λ n. n ≡ sent + count_to CONNECTION (output.now ∷ [])) }
{
    if output.to != CONNECTION {
        return Ok(sent);
    }
    let Some(serial) = sent.checked_add(1) else {
        return Err(NoMemory);
    };
    outbox.put_message(alloc, output, history, serial)?;
    Ok(serial)
}

/// Keeps the messages of those of these outputs that go to the connection, which was sent so many
/// before. The answer is how many it was sent now.
pub fn put_outputs(
    alloc: Global,
    history: &History,
    outputs: &[Output],
    before: u32,
    outbox: &mut Outbox,
) -> Result<u32, NoMemory>
    requires sendable { AreSendableTo CONNECTION outputs.now }
    ensures put { OnOk result (outbox.new ≡ outbox.old ++ output_bytes history.now.loads CONNECTION before outputs.now) }
    ensures count { IfOk result (λ n. n ≡ before + count_to CONNECTION outputs.now) }
{
    let mut sent = before;
    for output in outputs {
        sent = put_own(alloc, history, output, sent, outbox)?;
    }
    Ok(sent)
}
