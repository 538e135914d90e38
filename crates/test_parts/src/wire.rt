// What connections send. It was marshalled apart from these crates, by the D-Bus Specification. Each
// call has the serial 1.

/// A handshake of user 1000.
pub const SHAKE_ALICE: &[u8] = b"\0AUTH EXTERNAL 31303030\r\nBEGIN\r\n";

/// The same of root.
pub const SHAKE_ROOT: &[u8] = b"\0AUTH EXTERNAL 30\r\nBEGIN\r\n";

/// CheckAuthorization of the process 51 with the start time 8 for `a.yes`, which all may do.
pub const CHECK_YES: &[u8] =
    b"l\x01\0\x01a\0\0\0\x01\0\0\0\x96\0\0\0\x01\x01o\0%\0\0\0/org/freedesktop/PolicyKit1/Authority\0\0\0\x02\x01s\0$\0\0\0org.freedesktop.PolicyKit1.Authority\0\0\0\0\x03\x01s\0\x12\0\0\0CheckAuthorization\0\0\0\0\0\0\x08\x01g\0\x10(sa{sv})sa{ss}us\0\0\0\x0c\0\0\0unix-process\0\0\0\00\0\0\0\x03\0\0\0pid\0\x01u\0\03\0\0\0\n\0\0\0start-time\0\x01t\0\0\0\0\0\0\0\x08\0\0\0\0\0\0\0\x05\0\0\0a.yes\0\0\0\0\0\0\0\0\0\0\0\0\0\0\0\0";

/// CheckAuthorization of the process 50 for `a.self`, where the user may be asked.
pub const ASK: &[u8] =
    b"l\x01\0\x01a\0\0\0\x01\0\0\0\x96\0\0\0\x01\x01o\0%\0\0\0/org/freedesktop/PolicyKit1/Authority\0\0\0\x02\x01s\0$\0\0\0org.freedesktop.PolicyKit1.Authority\0\0\0\0\x03\x01s\0\x12\0\0\0CheckAuthorization\0\0\0\0\0\0\x08\x01g\0\x10(sa{sv})sa{ss}us\0\0\0\x0c\0\0\0unix-process\0\0\0\00\0\0\0\x03\0\0\0pid\0\x01u\0\02\0\0\0\n\0\0\0start-time\0\x01t\0\0\0\0\0\0\0\x07\0\0\0\0\0\0\0\x06\0\0\0a.self\0\0\0\0\0\0\x01\0\0\0\0\0\0\0\0";

/// Reload.
pub const RELOAD: &[u8] =
    b"l\x01\0\x01\0\0\0\0\x01\0\0\0o\0\0\0\x01\x01o\0%\0\0\0/org/freedesktop/PolicyKit1/Authority\0\0\0\x02\x01s\0\"\0\0\0org.freedesktop.PolicyKit1.Profile\0\0\0\0\0\0\x03\x01s\0\x06\0\0\0Reload\0\0";
