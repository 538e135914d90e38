// What clients send, and what they are answered.

/// What a client of user 1000 sends: its authentication, and a call of a method that there is not
/// (D-Bus Specification, "Authentication Protocol" and "Message Format").
pub(crate) const CALL: &[u8] =
    b"\0AUTH EXTERNAL 31303030\r\nBEGIN\r\nl\x01\0\x01a\0\0\0\x01\0\0\0\x96\0\0\0\x01\x01o\0%\0\0\0/org/freedesktop/PolicyKit1/Authority\0\0\0\x02\x01s\0$\0\0\0org.freedesktop.PolicyKit1.Authority\0\0\0\0\x03\x01s\0\x12\0\0\0CheckAuthorizatioN\0\0\0\0\0\0\x08\x01g\0\x10(sa{sv})sa{ss}us\0\0\0\x0c\0\0\0unix-process\0\0\0\00\0\0\0\x03\0\0\0pid\0\x01u\0\03\0\0\0\n\0\0\0start-time\0\x01t\0\0\0\0\0\0\0\x08\0\0\0\0\0\0\0\x05\0\0\0a.yes\0\0\0\0\0\0\0\0\0\0\0\0\0\0\0\0";

/// The same, and that call once more.
pub(crate) const CALLS: &[u8] =
    b"\0AUTH EXTERNAL 31303030\r\nBEGIN\r\nl\x01\0\x01a\0\0\0\x01\0\0\0\x96\0\0\0\x01\x01o\0%\0\0\0/org/freedesktop/PolicyKit1/Authority\0\0\0\x02\x01s\0$\0\0\0org.freedesktop.PolicyKit1.Authority\0\0\0\0\x03\x01s\0\x12\0\0\0CheckAuthorizatioN\0\0\0\0\0\0\x08\x01g\0\x10(sa{sv})sa{ss}us\0\0\0\x0c\0\0\0unix-process\0\0\0\00\0\0\0\x03\0\0\0pid\0\x01u\0\03\0\0\0\n\0\0\0start-time\0\x01t\0\0\0\0\0\0\0\x08\0\0\0\0\0\0\0\x05\0\0\0a.yes\0\0\0\0\0\0\0\0\0\0\0\0\0\0\0\0l\x01\0\x01a\0\0\0\x01\0\0\0\x96\0\0\0\x01\x01o\0%\0\0\0/org/freedesktop/PolicyKit1/Authority\0\0\0\x02\x01s\0$\0\0\0org.freedesktop.PolicyKit1.Authority\0\0\0\0\x03\x01s\0\x12\0\0\0CheckAuthorizatioN\0\0\0\0\0\0\x08\x01g\0\x10(sa{sv})sa{ss}us\0\0\0\x0c\0\0\0unix-process\0\0\0\00\0\0\0\x03\0\0\0pid\0\x01u\0\03\0\0\0\n\0\0\0start-time\0\x01t\0\0\0\0\0\0\0\x08\0\0\0\0\0\0\0\x05\0\0\0a.yes\0\0\0\0\0\0\0\0\0\0\0\0\0\0\0\0";

/// What the server answers to an authentication, where the random word is 0.
pub(crate) const OK: &[u8] = b"OK 00000000000000000000000000000000\r\n";

/// The same, and the error UnknownMethod with the serial 1.
pub(crate) const NO_SUCH_METHOD: &[u8] =
    b"OK 00000000000000000000000000000000\r\nl\x03\x01\x01\x13\0\0\0\x01\0\0\0G\0\0\0\x04\x01s\0(\0\0\0org.freedesktop.DBus.Error.UnknownMethod\0\0\0\0\0\0\0\0\x05\x01u\0\x01\0\0\0\x08\x01g\0\x01s\0\0\x0e\0\0\0No such method\0";

/// The same, and that error once more with the serial 2.
pub(crate) const NO_SUCH_METHODS: &[u8] =
    b"OK 00000000000000000000000000000000\r\nl\x03\x01\x01\x13\0\0\0\x01\0\0\0G\0\0\0\x04\x01s\0(\0\0\0org.freedesktop.DBus.Error.UnknownMethod\0\0\0\0\0\0\0\0\x05\x01u\0\x01\0\0\0\x08\x01g\0\x01s\0\0\x0e\0\0\0No such method\0l\x03\x01\x01\x13\0\0\0\x02\0\0\0G\0\0\0\x04\x01s\0(\0\0\0org.freedesktop.DBus.Error.UnknownMethod\0\0\0\0\0\0\0\0\x05\x01u\0\x01\0\0\0\x08\x01g\0\x01s\0\0\x0e\0\0\0No such method\0";

/// The answer to an authentication, and the first 50 bytes of that error.
pub(crate) const FRONT_OF_ERROR: &[u8] =
    b"OK 00000000000000000000000000000000\r\nl\x03\x01\x01\x13\0\0\0\x01\0\0\0G\0\0\0\x04\x01s\0(\0\0\0org.freedesktop.DBus.Error";
