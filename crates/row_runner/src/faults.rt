// The names of faults, by which a report of a skipped file tells them.
use crate::row::{Row, Wrong};
use admin_identities::AdminFault;
use keyfile_text::KeyFaultKind;
use pkla_files::PklaFaultKind;
use xml_pieces::XmlFaultKind;

fn keyfile_faults(row: &mut Row) {
    for kind in [
        KeyFaultKind::NotUtf8,
        KeyFaultKind::NoGroup,
        KeyFaultKind::BadHeader,
        KeyFaultKind::NoEquals,
        KeyFaultKind::BadEscape,
        KeyFaultKind::TooLong,
        KeyFaultKind::NoMemory,
    ] {
        row.word(kind.name());
    }
}

fn pkla_faults(row: &mut Row) {
    for kind in [
        PklaFaultKind::MissingKey,
        PklaFaultKind::ResultWord,
        PklaFaultKind::Netgroup,
        PklaFaultKind::ReturnValue,
        PklaFaultKind::NoMemory,
    ] {
        row.word(kind.name());
    }
}

fn xml_faults(row: &mut Row) {
    for kind in [
        XmlFaultKind::NotUtf8,
        XmlFaultKind::Malformed,
        XmlFaultKind::Mismatch,
        XmlFaultKind::Element,
        XmlFaultKind::ActionId,
        XmlFaultKind::DefaultWord,
        XmlFaultKind::Missing,
        XmlFaultKind::Repeated,
        XmlFaultKind::Cdata,
        XmlFaultKind::TooLong,
        XmlFaultKind::NoMemory,
    ] {
        row.word(kind.name());
    }
}

fn admin_faults(row: &mut Row) {
    let bad = AdminFault::BadIdentity { file: 0, item: 0 };
    row.word(bad.name());
    row.word(AdminFault::NoMemory.name());
}

/// `fault_names WORD`: the names of all faults of a reader
pub fn fault_names(row: &mut Row) {
    match row.bytes() {
        b"keyfile" => keyfile_faults(row),
        b"pkla" => pkla_faults(row),
        b"action_file" => xml_faults(row),
        b"admins" => admin_faults(row),
        _ => row.mark(Wrong::Word),
    }
}
