// Reports of what is skipped.
ghost use Rattle.std.specs.Prelude.{◌≡◌, IfOk};
ghost use Rattle.pk_types.specs.Text.{IsText};

use authority_model::FileFault;
use pk_types::{NoMemory, Text};
use std::alloc::Global;

/// The report of a file, or of something in it, that is skipped.
pub fn report(alloc: Global, path: &Text, kind: &[u8], at: u64) -> Result<FileFault, NoMemory>
    requires { IsText kind.now }
    ensures report { IfOk result (λ report. report ≡ record { file = path.now; kind = kind.now; at = at }) }
{
    let file = path.try_copy()?;
    let kind = Text::of_known(alloc, kind)?;
    Ok(FileFault { file, kind, at })
}
