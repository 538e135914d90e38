// The bytes of both sides. They were marshalled apart from these crates, by the D-Bus Specification.

/// What one side says at once.
#[derive(Clone, Copy)]
pub enum Part {
    /// The client's half of the handshake for the user 1000, up to the answer.
    AuthAlice,
    /// The same for root.
    AuthRoot,
    /// What it says behind the answer.
    BeginLine,
    /// The server accepts the client.
    Accepts,
    /// CheckAuthorization of the process 51 with the start time 8 for `a.yes`, with the serial 1;
    /// the user may be asked.
    Check,
    /// The reply to serial 1: yes by the default for any.
    Yes,
    /// RegisterAuthenticationAgent for the session `s1`, with the serial 1.
    Register,
    /// An empty return to the serial 1.
    DoneTo1,
    /// BeginAuthentication for `a.self`, with the serial 2 and the first cookie.
    Begin2,
    /// AuthenticationAgentResponse for the first cookie and the user 1000, with the serial 1.
    Respond1,
    /// An agent's empty return with the serial 2, to the serial 2.
    Return2To2,
}

impl Part {
    /// Its bytes.
    pub fn bytes(self) -> &'static [u8] {
        match self {
            Part::AuthAlice => b"\0AUTH EXTERNAL 31303030\r\n",
            Part::AuthRoot => b"\0AUTH EXTERNAL 30\r\n",
            Part::BeginLine => b"BEGIN\r\n",
            Part::Accepts => b"OK 00000000000000000000000000000000\r\n",
            Part::Check =>
                b"l\x01\0\x01a\0\0\0\x01\0\0\0\x96\0\0\0\x01\x01o\0%\0\0\0/org/freedesktop/PolicyKit1/Authority\0\0\0\x02\x01s\0$\0\0\0org.freedesktop.PolicyKit1.Authority\0\0\0\0\x03\x01s\0\x12\0\0\0CheckAuthorization\0\0\0\0\0\0\x08\x01g\0\x10(sa{sv})sa{ss}us\0\0\0\x0c\0\0\0unix-process\0\0\0\00\0\0\0\x03\0\0\0pid\0\x01u\0\03\0\0\0\n\0\0\0start-time\0\x01t\0\0\0\0\0\0\0\x08\0\0\0\0\0\0\0\x05\0\0\0a.yes\0\0\0\0\0\0\0\x01\0\0\0\0\0\0\0\0",
            Part::Yes =>
                b"l\x02\x01\x018\0\0\0\x01\0\0\0\x17\0\0\0\x05\x01u\0\x01\0\0\0\x08\x01g\0\x09(bba{ss})\0\0\x01\0\0\0\0\0\0\0(\0\0\0\0\0\0\0\x11\0\0\0polkit.decided-by\0\0\0\x0b\0\0\0default:any\0",
            Part::Register =>
                b"l\x01\0\x01G\0\0\0\x01\0\0\0\x98\0\0\0\x01\x01o\0%\0\0\0/org/freedesktop/PolicyKit1/Authority\0\0\0\x02\x01s\0$\0\0\0org.freedesktop.PolicyKit1.Authority\0\0\0\0\x03\x01s\0\x1b\0\0\0RegisterAuthenticationAgent\0\0\0\0\0\x08\x01g\0\n(sa{sv})ss\0\x0c\0\0\0unix-session\0\0\0\0\x1b\0\0\0\n\0\0\0session-id\0\x01s\0\0\0\x02\0\0\0s1\0\0\x01\0\0\0C\0\0\0\x06\0\0\0/agent\0",
            Part::DoneTo1 => b"l\x02\x01\x01\0\0\0\0\x01\0\0\0\x08\0\0\0\x05\x01u\0\x01\0\0\0",
            Part::Begin2 =>
                b"l\x01\0\x01\x90\0\0\0\x02\0\0\0\x80\0\0\0\x01\x01o\0\x06\0\0\0/agent\0\0\x02\x01s\0.\0\0\0org.freedesktop.PolicyKit1.AuthenticationAgent\0\0\x03\x01s\0\x13\0\0\0BeginAuthentication\0\0\0\0\0\x08\x01g\0\x12sssa{ss}sa(sa{sv})\0\x06\0\0\0a.self\0\0\x1a\0\0\0Authentication is required\0\0\0\0\0\0\0\0\0\0\0\0\0\0\"\0\0\01-00000000000000000000000000000001\0\0(\0\0\0\0\0\0\0\x09\0\0\0unix-user\0\0\0\x10\0\0\0\0\0\0\0\x03\0\0\0uid\0\x01u\0\0\xe8\x03\0\0",
            Part::Respond1 =>
                b"l\x01\0\x01P\0\0\0\x01\0\0\0\x97\0\0\0\x01\x01o\0%\0\0\0/org/freedesktop/PolicyKit1/Authority\0\0\0\x02\x01s\0$\0\0\0org.freedesktop.PolicyKit1.Authority\0\0\0\0\x03\x01s\0\x1b\0\0\0AuthenticationAgentResponse\0\0\0\0\0\x08\x01g\0\x09s(sa{sv})\0\0\"\0\0\01-00000000000000000000000000000001\0\0\x09\0\0\0unix-user\0\0\0\x10\0\0\0\0\0\0\0\x03\0\0\0uid\0\x01u\0\0\xe8\x03\0\0",
            Part::Return2To2 => b"l\x02\x01\x01\0\0\0\0\x02\0\0\0\x08\0\0\0\x05\x01u\0\x02\0\0\0",
        }
    }
}
