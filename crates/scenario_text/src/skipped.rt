// The lines that tell what a load skipped.
ghost use Rattle.std.specs.Prelude.{◌≡◌, ◌++◌, string_bytes, IfOk, OnOk};
ghost use Rattle.scenario_text.specs.Skipped.{skipped_line, skipped_lines};

use crate::escape::push_escaped;
use authority_model::FileFault;
use pk_types::{ByteList, List, NoMemory};
use std::alloc::{AllocError, Global};

/// Adds the line of one report.
fn push_skipped(text: &mut String, fault: &FileFault) -> Result<(), AllocError>
    ensures ok { OnOk result (string_bytes text.new ≡ string_bytes text.old ++ skipped_line fault.now) }
{
    let at = fault.at;
    text.push_str("skipped ")?;
    push_escaped(text, fault.file.bytes())?;
    text.push_str(" ")?;
    push_escaped(text, fault.kind.bytes())?;
    write!(text, " {at}\n")
}

/// Adds the lines of reports, one after another.
fn push_reports(text: &mut String, faults: &[FileFault]) -> Result<(), AllocError>
    ensures ok { OnOk result (string_bytes text.new ≡ string_bytes text.old ++ skipped_lines faults.now) }
{
    for fault in faults {
        push_skipped(text, fault)?;
    }
    Ok(())
}

/// The lines that tell what a load skipped: `skipped FILE KIND AT` for each report, in their order,
/// each ended by a line feed. FILE and KIND are escaped as in an answer line.
///
/// # Errors
/// `NoMemory` alone.
pub fn skipped_text(alloc: Global, faults: &[FileFault]) -> Result<ByteList, NoMemory>
    ensures lines { IfOk result (λ lines. lines ≡ skipped_lines faults.now) }
{
    let mut text = String::new(alloc);
    push_reports(&mut text, faults)?;
    Ok(List::from_vec(text.into_bytes()))
}
