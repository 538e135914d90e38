// What a file comes to.
ghost use Rattle.std.specs.Prelude.{◌≡◌, ◌∷◌, [], map, IfOk};
ghost use Rattle.pk_types.specs.Text.{IsText};
ghost use Rattle.policy_load.specs.Findings.{skipped, read_as, found_in, found, actions_found, admins_found, admins_found_in, entries_found, entries_found_in};
ghost use Rattle.policy_load.specs.Kept.{found_with};
ghost use Rattle.action_xml.specs.Files.{actions_of};
ghost use Rattle.keyfile_text.specs.KeyFiles.{groups_of};
ghost use Rattle.admin_identities.specs.Configured.{first_fault as first_admin_fault};
ghost use Rattle.pkla_files.specs.Faults.{first_fault};

use crate::files::reading::TurnFile;
use crate::files::skipping::report;
use crate::order::{FileKind, Turn};
use action_xml::XmlFaultKind;
use admin_identities::{AdminFault, admins};
use authority_model::{ActionList, FileFault, RuleList};
use keyfile_text::{Groups, GroupsList, KeyFaultKind};
use pk_outside::FileBytes;
use pk_types::{NoMemory, Text};
use pkla_files::{PklaFaultKind, entries};
use std::alloc::Global;

/// What a turn of a load comes to.
#[derive(Drop)]
pub enum Finding {
    /// The file is absent.
    Nothing,
    /// The file is skipped, or the names are not text.
    Skipped(FileFault),
    /// The actions of the file at the path.
    Actions { path: Text, actions: ActionList },
    /// The groups of an administrators' file.
    Admins(Groups),
    /// The entries of a file.
    Entries(RuleList),
}

/// The file is skipped for this kind of fault at this place.
fn skipped(alloc: Global, path: &Text, kind: &[u8], at: u64) -> Result<Finding, NoMemory>
    requires { IsText kind.now }
    ensures skipped { IfOk result (λ finding. finding ≡ skipped path.now kind.now at) }
{
    let report = report(alloc, path, kind, at)?;
    Ok(Finding::Skipped(report))
}

/// What an action file comes to.
fn actions_found(alloc: Global, path: &Text, bytes: &[u8]) -> Result<Finding, NoMemory>
    ensures found { IfOk result (λ finding. finding ≡ actions_found path.now (actions_of bytes.now)) }
{
    match action_xml::read(alloc, bytes) {
        Ok(file) => {
            let path = path.try_copy()?;
            Ok(Finding::Actions {
                path,
                actions: file.actions,
            })
        }
        Err(fault) => match fault.kind {
            XmlFaultKind::NoMemory => Err(NoMemory),
            kind => skipped(alloc, path, kind.name().as_bytes(), fault.at as u64),
        },
    }
}

/// What the groups of an administrators' file come to.
fn admins_found_in(alloc: Global, path: &Text, groups: Groups) -> Result<Finding, NoMemory>
    ensures found { IfOk result (λ finding. finding
        ≡ admins_found_in path.now groups (first_admin_fault (groups ∷ []))) }
{
    let mut confs = GroupsList::new(alloc);
    confs.try_push(groups)?;
    match admins(alloc, &confs) {
        Ok(_) => match confs.pop() {
            Some(groups) => Ok(Finding::Admins(groups)),
            None => Ok(Finding::Nothing),
        },
        Err(AdminFault::NoMemory) => Err(NoMemory),
        Err(AdminFault::BadIdentity { item, .. }) => skipped(alloc, path, b"BadIdentity", item),
    }
}

/// What an administrators' file comes to.
fn admins_found(alloc: Global, path: &Text, bytes: &[u8]) -> Result<Finding, NoMemory>
    ensures found { IfOk result (λ finding. finding ≡ admins_found path.now (groups_of bytes.now)) }
{
    match keyfile_text::read(alloc, bytes) {
        Ok(groups) => admins_found_in(alloc, path, groups),
        Err(fault) => match fault.kind {
            KeyFaultKind::NoMemory => Err(NoMemory),
            kind => skipped(alloc, path, kind.name().as_bytes(), fault.at as u64),
        },
    }
}

/// What the groups of a file of entries come to.
fn entries_found_in(alloc: Global, path: &Text, groups: &Groups) -> Result<Finding, NoMemory>
    ensures found { IfOk result (λ finding. finding ≡ entries_found_in path.now groups.now (first_fault groups.now)) }
{
    match entries(alloc, groups) {
        Ok(entries) => Ok(Finding::Entries(entries)),
        Err(fault) => match fault.kind {
            PklaFaultKind::NoMemory => Err(NoMemory),
            kind => skipped(alloc, path, kind.name().as_bytes(), fault.group),
        },
    }
}

/// What a file of entries comes to.
fn entries_found(alloc: Global, path: &Text, bytes: &[u8]) -> Result<Finding, NoMemory>
    ensures found { IfOk result (λ finding. finding ≡ entries_found path.now (groups_of bytes.now)) }
{
    match keyfile_text::read(alloc, bytes) {
        Ok(groups) => entries_found_in(alloc, path, &groups),
        Err(fault) => match fault.kind {
            KeyFaultKind::NoMemory => Err(NoMemory),
            kind => skipped(alloc, path, kind.name().as_bytes(), fault.at as u64),
        },
    }
}

/// What the reader of its kind makes of a file.
fn read_as(alloc: Global, kind: FileKind, path: &Text, bytes: &[u8]) -> Result<Finding, NoMemory>
    ensures found { IfOk result (λ finding. finding ≡ read_as kind path.now bytes.now) }
{
    match kind {
        FileKind::Actions => actions_found(alloc, path, bytes),
        FileKind::Admins => admins_found(alloc, path, bytes),
        FileKind::Entries => entries_found(alloc, path, bytes),
    }
}

/// What a file at a path comes to.
fn found_in(
    alloc: Global,
    kind: FileKind,
    path: &Text,
    bytes: &FileBytes,
) -> Result<Finding, NoMemory>
    ensures found { IfOk result (λ finding. finding ≡ found_in kind path.now bytes.now) }
{
    match bytes {
        FileBytes::Absent => Ok(Finding::Nothing),
        FileBytes::TooLong => skipped(alloc, path, b"TooLong", 0),
        FileBytes::Bytes(bytes) => read_as(alloc, kind, path, bytes.as_slice()),
    }
}

/// What a turn comes to, by itself. A file whose reader refuses it for another cause than memory is
/// skipped, and told with the name of the fault's kind and the place that the kind counts; a file
/// over its limit is told as `TooLong` at 0, and names that are not text as `Name` with their number.
pub fn find(alloc: Global, file: &TurnFile) -> Result<Finding, NoMemory>
    ensures found { IfOk result (λ finding. finding ≡ found_with file.now) }
{
    match &file.turn {
        Turn::Unnamed { path, count } => skipped(alloc, path, b"Name", *count as u64),
        Turn::PolicyFile { path: None, .. } => Ok(Finding::Nothing),
        Turn::PolicyFile {
            kind,
            path: Some(path),
        } => found_in(alloc, *kind, path, &file.bytes),
    }
}

/// What each of these turns comes to.
pub fn find_each(alloc: Global, files: &[TurnFile]) -> Result<Vec<Finding>, NoMemory>
    ensures found { IfOk result (λ findings. findings.items ≡ map found_with files.now) }
{
    let mut findings = Vec::with_capacity(alloc, files.len())?;
    for file in files {
        findings.push(find(alloc, file)?)?;
    }
    Ok(findings)
}
