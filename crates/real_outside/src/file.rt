// A file of the system that a station makes.
ghost use Rattle.std.specs.Prelude.{◌≡◌, IfOk};
ghost use Rattle.real_outside.specs.Streams.{sink_faults};

use crate::refusal::{CallRefused, system_path};
use crate::streams::WriteSink;
use pk_types::Text;
use std::fs::{self, File, Files};

/// A file that is made anew at the path, as a sink without a fault. What a file held that stands
/// there already is gone.
///
/// Each write is one call of the system: a caller with short texts gathers them. What the system
/// refuses only when the file is closed is not seen.
pub(crate) fn create<R: Files<File = File>>(
    rt: &R,
    path: &Text,
) -> Result<WriteSink<File>, CallRefused>
    ensures count { IfOk result (λ file. sink_faults file ≡ 0) }
{
    let file = fs::create(rt, system_path(path)?).map_err(CallRefused::Failed)?;
    Ok(WriteSink {
        inner: file,
        faults: 0,
    })
}
