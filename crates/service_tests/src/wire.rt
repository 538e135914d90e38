// What the connections send and are sent. It was marshalled apart from these crates, by the D-Bus
// Specification.

/// What a handshake is answered, where the random word is 0.
pub const OK: &[u8] = b"OK 00000000000000000000000000000000\r\n";

/// RegisterAuthenticationAgent for the process 50 with the start time 7, with the serial 1.
pub const REGISTER: &[u8] =
    b"l\x01\0\x01[\0\0\0\x01\0\0\0\x98\0\0\0\x01\x01o\0%\0\0\0/org/freedesktop/PolicyKit1/Authority\0\0\0\x02\x01s\0$\0\0\0org.freedesktop.PolicyKit1.Authority\0\0\0\0\x03\x01s\0\x1b\0\0\0RegisterAuthenticationAgent\0\0\0\0\0\x08\x01g\0\n(sa{sv})ss\0\x0c\0\0\0unix-process\0\0\0\00\0\0\0\x03\0\0\0pid\0\x01u\0\02\0\0\0\n\0\0\0start-time\0\x01t\0\0\0\0\0\0\0\x07\0\0\0\0\0\0\0\x01\0\0\0C\0\0\0\x06\0\0\0/agent\0";

/// AuthenticationAgentResponse for the first cookie, where the random word is 0, and the user 1000,
/// with the serial 1.
pub const RESPOND: &[u8] =
    b"l\x01\0\x01P\0\0\0\x01\0\0\0\x97\0\0\0\x01\x01o\0%\0\0\0/org/freedesktop/PolicyKit1/Authority\0\0\0\x02\x01s\0$\0\0\0org.freedesktop.PolicyKit1.Authority\0\0\0\0\x03\x01s\0\x1b\0\0\0AuthenticationAgentResponse\0\0\0\0\0\x08\x01g\0\x09s(sa{sv})\0\0\"\0\0\01-00000000000000000000000000000000\0\0\x09\0\0\0unix-user\0\0\0\x10\0\0\0\0\0\0\0\x03\0\0\0uid\0\x01u\0\0\xe8\x03\0\0";

/// An agent's empty return with the serial 2, to the serial 2.
pub const RETURN: &[u8] = b"l\x02\x01\x01\0\0\0\0\x02\0\0\0\x08\0\0\0\x05\x01u\0\x02\0\0\0";

/// An empty return with the serial 1, to the serial 1.
pub const DONE: &[u8] = b"l\x02\x01\x01\0\0\0\0\x01\0\0\0\x08\0\0\0\x05\x01u\0\x01\0\0\0";

/// BeginAuthentication for `a.self` with the serial 2 and that cookie.
pub const BEGIN: &[u8] =
    b"l\x01\0\x01\x90\0\0\0\x02\0\0\0\x80\0\0\0\x01\x01o\0\x06\0\0\0/agent\0\0\x02\x01s\0.\0\0\0org.freedesktop.PolicyKit1.AuthenticationAgent\0\0\x03\x01s\0\x13\0\0\0BeginAuthentication\0\0\0\0\0\x08\x01g\0\x12sssa{ss}sa(sa{sv})\0\x06\0\0\0a.self\0\0\x1a\0\0\0Authentication is required\0\0\0\0\0\0\0\0\0\0\0\0\0\0\"\0\0\01-00000000000000000000000000000000\0\0(\0\0\0\0\0\0\0\x09\0\0\0unix-user\0\0\0\x10\0\0\0\0\0\0\0\x03\0\0\0uid\0\x01u\0\0\xe8\x03\0\0";

/// Yes by a challenge, with the serial 1, to the serial 1.
pub const YES: &[u8] =
    b"l\x02\x01\x016\0\0\0\x01\0\0\0\x17\0\0\0\x05\x01u\0\x01\0\0\0\x08\x01g\0\x09(bba{ss})\0\0\x01\0\0\0\0\0\0\0&\0\0\0\0\0\0\0\x11\0\0\0polkit.decided-by\0\0\0\x09\0\0\0challenge\0";

/// Yes by the default for any, with the serial 1, to the serial 1.
pub const YES_ANY: &[u8] =
    b"l\x02\x01\x018\0\0\0\x01\0\0\0\x17\0\0\0\x05\x01u\0\x01\0\0\0\x08\x01g\0\x09(bba{ss})\0\0\x01\0\0\0\0\0\0\0(\0\0\0\0\0\0\0\x11\0\0\0polkit.decided-by\0\0\0\x0b\0\0\0default:any\0";

/// The signal Changed, with the serial 2.
pub const CHANGED: &[u8] =
    b"l\x04\x01\x01\0\0\0\0\x02\0\0\0p\0\0\0\x01\x01o\0%\0\0\0/org/freedesktop/PolicyKit1/Authority\0\0\0\x02\x01s\0$\0\0\0org.freedesktop.PolicyKit1.Authority\0\0\0\0\x03\x01s\0\x07\0\0\0Changed\0";

/// The same with the serial 1.
pub const CHANGED_FIRST: &[u8] =
    b"l\x04\x01\x01\0\0\0\0\x01\0\0\0p\0\0\0\x01\x01o\0%\0\0\0/org/freedesktop/PolicyKit1/Authority\0\0\0\x02\x01s\0$\0\0\0org.freedesktop.PolicyKit1.Authority\0\0\0\0\x03\x01s\0\x07\0\0\0Changed\0";

/// The error that the subject is not known, with the serial 2, to the serial 1.
pub const UNKNOWN: &[u8] =
    b"l\x03\x01\x01\x1d\0\0\0\x02\0\0\0?\0\0\0\x04\x01s\0'\0\0\0org.freedesktop.PolicyKit1.Error.Failed\0\x05\x01u\0\x01\0\0\0\x08\x01g\0\x01s\0\0\x18\0\0\0The subject is not known\0";

/// What a user may ask, one after another: RegisterAuthenticationAgent, two checks, EnumerateActions, a
/// method that there is not, AuthenticationAgentResponse, and EnumerateTemporaryAuthorizations.
pub const TALK_OF_ALICE: &[u8] =
    b"l\x01\0\x01[\0\0\0\x01\0\0\0\x98\0\0\0\x01\x01o\0%\0\0\0/org/freedesktop/PolicyKit1/Authority\0\0\0\x02\x01s\0$\0\0\0org.freedesktop.PolicyKit1.Authority\0\0\0\0\x03\x01s\0\x1b\0\0\0RegisterAuthenticationAgent\0\0\0\0\0\x08\x01g\0\n(sa{sv})ss\0\x0c\0\0\0unix-process\0\0\0\00\0\0\0\x03\0\0\0pid\0\x01u\0\02\0\0\0\n\0\0\0start-time\0\x01t\0\0\0\0\0\0\0\x07\0\0\0\0\0\0\0\x01\0\0\0C\0\0\0\x06\0\0\0/agent\0l\x01\0\x01a\0\0\0\x02\0\0\0\x96\0\0\0\x01\x01o\0%\0\0\0/org/freedesktop/PolicyKit1/Authority\0\0\0\x02\x01s\0$\0\0\0org.freedesktop.PolicyKit1.Authority\0\0\0\0\x03\x01s\0\x12\0\0\0CheckAuthorization\0\0\0\0\0\0\x08\x01g\0\x10(sa{sv})sa{ss}us\0\0\0\x0c\0\0\0unix-process\0\0\0\00\0\0\0\x03\0\0\0pid\0\x01u\0\03\0\0\0\n\0\0\0start-time\0\x01t\0\0\0\0\0\0\0\x08\0\0\0\0\0\0\0\x05\0\0\0a.yes\0\0\0\0\0\0\0\0\0\0\0\0\0\0\0\0l\x01\0\x01a\0\0\0\x03\0\0\0\x96\0\0\0\x01\x01o\0%\0\0\0/org/freedesktop/PolicyKit1/Authority\0\0\0\x02\x01s\0$\0\0\0org.freedesktop.PolicyKit1.Authority\0\0\0\0\x03\x01s\0\x12\0\0\0CheckAuthorization\0\0\0\0\0\0\x08\x01g\0\x10(sa{sv})sa{ss}us\0\0\0\x0c\0\0\0unix-process\0\0\0\00\0\0\0\x03\0\0\0pid\0\x01u\0\02\0\0\0\n\0\0\0start-time\0\x01t\0\0\0\0\0\0\0\x07\0\0\0\0\0\0\0\x06\0\0\0a.self\0\0\0\0\0\0\x01\0\0\0\0\0\0\0\0l\x01\0\x01\x05\0\0\0\x04\0\0\0\x87\0\0\0\x01\x01o\0%\0\0\0/org/freedesktop/PolicyKit1/Authority\0\0\0\x02\x01s\0$\0\0\0org.freedesktop.PolicyKit1.Authority\0\0\0\0\x03\x01s\0\x10\0\0\0EnumerateActions\0\0\0\0\0\0\0\0\x08\x01g\0\x01s\0\0\0\0\0\0\0l\x01\0\x01\0\0\0\0\x05\0\0\0{\0\0\0\x01\x01o\0%\0\0\0/org/freedesktop/PolicyKit1/Authority\0\0\0\x02\x01s\0$\0\0\0org.freedesktop.PolicyKit1.Authority\0\0\0\0\x03\x01s\0\x12\0\0\0CheckAuthorisation\0\0\0\0\0\0l\x01\0\x01P\0\0\0\x06\0\0\0\x97\0\0\0\x01\x01o\0%\0\0\0/org/freedesktop/PolicyKit1/Authority\0\0\0\x02\x01s\0$\0\0\0org.freedesktop.PolicyKit1.Authority\0\0\0\0\x03\x01s\0\x1b\0\0\0AuthenticationAgentResponse\0\0\0\0\0\x08\x01g\0\x09s(sa{sv})\0\0\"\0\0\01-00000000000000000000000000000000\0\0\x09\0\0\0unix-user\0\0\0\x10\0\0\0\0\0\0\0\x03\0\0\0uid\0\x01u\0\0\xe8\x03\0\0l\x01\0\x01H\0\0\0\x07\0\0\0\x9e\0\0\0\x01\x01o\0%\0\0\0/org/freedesktop/PolicyKit1/Authority\0\0\0\x02\x01s\0$\0\0\0org.freedesktop.PolicyKit1.Authority\0\0\0\0\x03\x01s\0 \0\0\0EnumerateTemporaryAuthorizations\0\0\0\0\0\0\0\0\x08\x01g\0\x08(sa{sv})\0\0\0\x0c\0\0\0unix-process\0\0\0\00\0\0\0\x03\0\0\0pid\0\x01u\0\02\0\0\0\n\0\0\0start-time\0\x01t\0\0\0\0\0\0\0\x07\0\0\0\0\0\0\0";

/// What root may ask: two checks, AuthenticationAgentResponse, RevokeTemporaryAuthorizations and
/// EnumerateActions.
pub const TALK_OF_ROOT: &[u8] =
    b"l\x01\0\x01a\0\0\0\x01\0\0\0\x96\0\0\0\x01\x01o\0%\0\0\0/org/freedesktop/PolicyKit1/Authority\0\0\0\x02\x01s\0$\0\0\0org.freedesktop.PolicyKit1.Authority\0\0\0\0\x03\x01s\0\x12\0\0\0CheckAuthorization\0\0\0\0\0\0\x08\x01g\0\x10(sa{sv})sa{ss}us\0\0\0\x0c\0\0\0unix-process\0\0\0\00\0\0\0\x03\0\0\0pid\0\x01u\0\03\0\0\0\n\0\0\0start-time\0\x01t\0\0\0\0\0\0\0\x08\0\0\0\0\0\0\0\x05\0\0\0a.yes\0\0\0\0\0\0\0\0\0\0\0\0\0\0\0\0l\x01\0\x01a\0\0\0\x02\0\0\0\x96\0\0\0\x01\x01o\0%\0\0\0/org/freedesktop/PolicyKit1/Authority\0\0\0\x02\x01s\0$\0\0\0org.freedesktop.PolicyKit1.Authority\0\0\0\0\x03\x01s\0\x12\0\0\0CheckAuthorization\0\0\0\0\0\0\x08\x01g\0\x10(sa{sv})sa{ss}us\0\0\0\x0c\0\0\0unix-process\0\0\0\00\0\0\0\x03\0\0\0pid\0\x01u\0\03\0\0\0\n\0\0\0start-time\0\x01t\0\0\0\0\0\0\0\x08\0\0\0\0\0\0\0\x06\0\0\0a.none\0\0\0\0\0\0\0\0\0\0\0\0\0\0\0l\x01\0\x01P\0\0\0\x03\0\0\0\x97\0\0\0\x01\x01o\0%\0\0\0/org/freedesktop/PolicyKit1/Authority\0\0\0\x02\x01s\0$\0\0\0org.freedesktop.PolicyKit1.Authority\0\0\0\0\x03\x01s\0\x1b\0\0\0AuthenticationAgentResponse\0\0\0\0\0\x08\x01g\0\x09s(sa{sv})\0\0\"\0\0\09-00000000000000000000000000000000\0\0\x09\0\0\0unix-user\0\0\0\x10\0\0\0\0\0\0\0\x03\0\0\0uid\0\x01u\0\0\xe8\x03\0\0l\x01\0\x01H\0\0\0\x04\0\0\0\x96\0\0\0\x01\x01o\0%\0\0\0/org/freedesktop/PolicyKit1/Authority\0\0\0\x02\x01s\0$\0\0\0org.freedesktop.PolicyKit1.Authority\0\0\0\0\x03\x01s\0\x1d\0\0\0RevokeTemporaryAuthorizations\0\0\0\x08\x01g\0\x08(sa{sv})\0\0\0\x0c\0\0\0unix-process\0\0\0\00\0\0\0\x03\0\0\0pid\0\x01u\0\02\0\0\0\n\0\0\0start-time\0\x01t\0\0\0\0\0\0\0\x07\0\0\0\0\0\0\0l\x01\0\x01\x07\0\0\0\x05\0\0\0\x87\0\0\0\x01\x01o\0%\0\0\0/org/freedesktop/PolicyKit1/Authority\0\0\0\x02\x01s\0$\0\0\0org.freedesktop.PolicyKit1.Authority\0\0\0\0\x03\x01s\0\x10\0\0\0EnumerateActions\0\0\0\0\0\0\0\0\x08\x01g\0\x01s\0\0\x02\0\0\0de\0";

/// The same yes with the serial 2, to the serial 1.
pub const YES_SECOND: &[u8] =
    b"l\x02\x01\x018\0\0\0\x02\0\0\0\x17\0\0\0\x05\x01u\0\x01\0\0\0\x08\x01g\0\x09(bba{ss})\0\0\x01\0\0\0\0\0\0\0(\0\0\0\0\0\0\0\x11\0\0\0polkit.decided-by\0\0\0\x0b\0\0\0default:any\0";

/// The same with the serial 3.
pub const YES_THIRD: &[u8] =
    b"l\x02\x01\x018\0\0\0\x03\0\0\0\x17\0\0\0\x05\x01u\0\x01\0\0\0\x08\x01g\0\x09(bba{ss})\0\0\x01\0\0\0\0\0\0\0(\0\0\0\0\0\0\0\x11\0\0\0polkit.decided-by\0\0\0\x0b\0\0\0default:any\0";

/// What root may ask to have a temporary authorization made, one after another:
/// RegisterAuthenticationAgent for the process 50, its check for `a.keep`, AuthenticationAgentResponse for
/// the first cookie, and the agent's empty return. Then the return comes once more, and the same check.
pub const TALK_OF_KEEPING: &[u8] =
    b"l\x01\0\x01[\0\0\0\x01\0\0\0\x98\0\0\0\x01\x01o\0%\0\0\0/org/freedesktop/PolicyKit1/Authority\0\0\0\x02\x01s\0$\0\0\0org.freedesktop.PolicyKit1.Authority\0\0\0\0\x03\x01s\0\x1b\0\0\0RegisterAuthenticationAgent\0\0\0\0\0\x08\x01g\0\n(sa{sv})ss\0\x0c\0\0\0unix-process\0\0\0\00\0\0\0\x03\0\0\0pid\0\x01u\0\02\0\0\0\n\0\0\0start-time\0\x01t\0\0\0\0\0\0\0\x07\0\0\0\0\0\0\0\x01\0\0\0C\0\0\0\x06\0\0\0/agent\0l\x01\0\x01a\0\0\0\x02\0\0\0\x96\0\0\0\x01\x01o\0%\0\0\0/org/freedesktop/PolicyKit1/Authority\0\0\0\x02\x01s\0$\0\0\0org.freedesktop.PolicyKit1.Authority\0\0\0\0\x03\x01s\0\x12\0\0\0CheckAuthorization\0\0\0\0\0\0\x08\x01g\0\x10(sa{sv})sa{ss}us\0\0\0\x0c\0\0\0unix-process\0\0\0\00\0\0\0\x03\0\0\0pid\0\x01u\0\02\0\0\0\n\0\0\0start-time\0\x01t\0\0\0\0\0\0\0\x07\0\0\0\0\0\0\0\x06\0\0\0a.keep\0\0\0\0\0\0\x01\0\0\0\0\0\0\0\0l\x01\0\x01P\0\0\0\x03\0\0\0\x97\0\0\0\x01\x01o\0%\0\0\0/org/freedesktop/PolicyKit1/Authority\0\0\0\x02\x01s\0$\0\0\0org.freedesktop.PolicyKit1.Authority\0\0\0\0\x03\x01s\0\x1b\0\0\0AuthenticationAgentResponse\0\0\0\0\0\x08\x01g\0\x09s(sa{sv})\0\0\"\0\0\01-00000000000000000000000000000000\0\0\x09\0\0\0unix-user\0\0\0\x10\0\0\0\0\0\0\0\x03\0\0\0uid\0\x01u\0\0\xe8\x03\0\0l\x02\x01\x01\0\0\0\0\x04\0\0\0\x08\0\0\0\x05\x01u\0\x02\0\0\0l\x02\x01\x01\0\0\0\0\x05\0\0\0\x08\0\0\0\x05\x01u\0\x02\0\0\0l\x01\0\x01a\0\0\0\x06\0\0\0\x96\0\0\0\x01\x01o\0%\0\0\0/org/freedesktop/PolicyKit1/Authority\0\0\0\x02\x01s\0$\0\0\0org.freedesktop.PolicyKit1.Authority\0\0\0\0\x03\x01s\0\x12\0\0\0CheckAuthorization\0\0\0\0\0\0\x08\x01g\0\x10(sa{sv})sa{ss}us\0\0\0\x0c\0\0\0unix-process\0\0\0\00\0\0\0\x03\0\0\0pid\0\x01u\0\02\0\0\0\n\0\0\0start-time\0\x01t\0\0\0\0\0\0\0\x07\0\0\0\0\0\0\0\x06\0\0\0a.keep\0\0\0\0\0\0\x01\0\0\0\0\0\0\0\0";

/// What comes of all but the last check: the agent is registered and asked, the response is taken, and yes
/// by a challenge with the first temporary authorization, of which Changed tells.
pub const KEEPING: &[u8] =
    b"l\x02\x01\x01\0\0\0\0\x01\0\0\0\x08\0\0\0\x05\x01u\0\x01\0\0\0l\x01\0\x01\x90\0\0\0\x02\0\0\0\x80\0\0\0\x01\x01o\0\x06\0\0\0/agent\0\0\x02\x01s\0.\0\0\0org.freedesktop.PolicyKit1.AuthenticationAgent\0\0\x03\x01s\0\x13\0\0\0BeginAuthentication\0\0\0\0\0\x08\x01g\0\x12sssa{ss}sa(sa{sv})\0\x06\0\0\0a.keep\0\0\x16\0\0\0Authentication is kept\0\0\0\0\0\0\0\0\0\0\0\0\0\0\0\0\0\0\"\0\0\01-00000000000000000000000000000000\0\0(\0\0\0\0\0\0\0\x09\0\0\0unix-user\0\0\0\x10\0\0\0\0\0\0\0\x03\0\0\0uid\0\x01u\0\0\xe8\x03\0\0l\x02\x01\x01\0\0\0\0\x03\0\0\0\x08\0\0\0\x05\x01u\0\x03\0\0\0l\x02\x01\x01n\0\0\0\x04\0\0\0\x17\0\0\0\x05\x01u\0\x02\0\0\0\x08\x01g\0\x09(bba{ss})\0\0\x01\0\0\0\0\0\0\0^\0\0\0\0\0\0\0\x11\0\0\0polkit.decided-by\0\0\0\x09\0\0\0challenge\0\0\0!\0\0\0polkit.temporary_authorization_id\0\0\0\x09\0\0\0tmpauthz0\0l\x04\x01\x01\0\0\0\0\x05\0\0\0p\0\0\0\x01\x01o\0%\0\0\0/org/freedesktop/PolicyKit1/Authority\0\0\0\x02\x01s\0$\0\0\0org.freedesktop.PolicyKit1.Authority\0\0\0\0\x03\x01s\0\x07\0\0\0Changed\0";

/// The last check is answered by yes, by that temporary authorization.
pub const KEPT: &[u8] =
    b"l\x02\x01\x01<\0\0\0\x06\0\0\0\x17\0\0\0\x05\x01u\0\x06\0\0\0\x08\x01g\0\x09(bba{ss})\0\0\x01\0\0\0\0\0\0\0,\0\0\0\0\0\0\0\x11\0\0\0polkit.decided-by\0\0\0\x0f\0\0\0grant:tmpauthz0\0";

/// The agent is asked once more, with the second cookie.
pub const ASKED_AGAIN: &[u8] =
    b"l\x01\0\x01\x90\0\0\0\x06\0\0\0\x80\0\0\0\x01\x01o\0\x06\0\0\0/agent\0\0\x02\x01s\0.\0\0\0org.freedesktop.PolicyKit1.AuthenticationAgent\0\0\x03\x01s\0\x13\0\0\0BeginAuthentication\0\0\0\0\0\x08\x01g\0\x12sssa{ss}sa(sa{sv})\0\x06\0\0\0a.keep\0\0\x16\0\0\0Authentication is kept\0\0\0\0\0\0\0\0\0\0\0\0\0\0\0\0\0\0\"\0\0\02-00000000000000000000000000000000\0\0(\0\0\0\0\0\0\0\x09\0\0\0unix-user\0\0\0\x10\0\0\0\0\0\0\0\x03\0\0\0uid\0\x01u\0\0\xe8\x03\0\0";
