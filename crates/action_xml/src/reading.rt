// Reading an action file.
ghost use Rattle.std.specs.Prelude.{◌≡◌, ℕ, List, Result, IfOk};
ghost use Rattle.xml_pieces.specs.declared.fault.Fault.{Fault};
ghost use Rattle.xml_pieces.specs.Reading.{Stops};
ghost use Rattle.action_drafts.specs.declared.draft.FileDraft.{FileDraft};
ghost use Rattle.authority_model.specs.declared.policy.Action.{Action};
ghost use Rattle.action_xml.specs.Files.{IsFirstFault, placed, without_mark, AreRead, ReadAs};
ghost use Rattle.action_xml.specs.ActionFiles.{IsActionFile, AnswersWith};

use crate::fault::XmlFault;
use crate::file::ActionFile;
use action_drafts::{all_finished, document};
use authority_model::ActionList;
use pk_types::bad_byte;
use std::alloc::Global;
use xml_pieces::{Stop, XmlFaultKind, behind};

/// The greatest number of bytes of an action file: 4 MiB.
pub const MAX_ACTION_FILE: usize = 4_194_304;

/// The bytes without a byte order mark.
fn without_mark(bytes: &[u8]) -> &[u8]
    ensures rest { result.now ≡ without_mark bytes.now }
{
    if bytes.starts_with(&[239, 187, 191]) {
        behind(3, bytes)
    } else {
        bytes
    }
}

/// The fault, with its place in a file of that many bytes.
#[tactic(auto, using(crate::proofs::Firsts::first_fault))]
fn placed(why: Stop, size: usize) -> XmlFault
    ensures first { (due : Result FileDraft Fault) → Stops why due
        → IsFirstFault result.kind result.at (placed size due) }
{
    match why {
        Stop::Bad(fault) => XmlFault {
            kind: fault.kind,
            at: size.saturating_sub(fault.left),
        },
        Stop::Memory => XmlFault {
            kind: XmlFaultKind::NoMemory,
            at: 0,
        },
    }
}

/// The actions of these bytes, or their first fault.
fn actions(alloc: Global, bytes: &[u8]) -> Result<ActionList, XmlFault>
    ensures read { AreRead bytes.now result }
{
    if bytes.len() > MAX_ACTION_FILE {
        return Err(XmlFault {
            kind: XmlFaultKind::TooLong,
            at: 0,
        });
    }
    if let Some(at) = bad_byte(bytes) {
        return Err(XmlFault {
            kind: XmlFaultKind::NotUtf8,
            at,
        });
    }
    let file = match document(alloc, without_mark(bytes)) {
        Ok(file) => file,
        Err(stop) => return Err(placed(stop, bytes.len())),
    };
    let actions = all_finished(alloc, file)?;
    Ok(actions)
}

/// The actions of an action file, or its first fault.
///
/// A file is UTF-8 with or without a byte order mark, and its root `policyconfig` holds actions
/// (polkit(8), "Declaring Actions"). CR LF and CR are read as LF. Texts are taken as they stand,
/// with the five named references and references by number; there are no CDATA sections, no
/// declarations in DOCTYPE and no processing instructions inside the root.
///
/// `Ok` comes for an action file with the actions that it says, and for nothing else. Otherwise
/// the first fault is told: a file over 4,194,304 bytes (`TooLong` at 0), then a byte that is 0 or
/// not valid UTF-8, and then the fault that the shortest prefix of the file decides, at the place
/// that [`XmlFault`] names.
pub fn read(alloc: Global, bytes: &[u8]) -> Result<ActionFile, XmlFault>
    ensures read { ReadAs bytes.now result }

    // What is read is an action file that says these actions.
    ensures is_file { IfOk result (λ file. IsActionFile bytes.now file.actions) }

    // An action file is read as the actions that it says, however it is spelled.
    ensures again { (actions : List Action) → IsActionFile bytes.now actions → AnswersWith actions result }
{
    match actions(alloc, bytes) {
        Ok(actions) => Ok(ActionFile { actions }),
        Err(fault) => Err(fault),
    }
}
