// The methods of the authority.
ghost use Rattle.std.specs.Prelude.{◌≡◌, option_map};
ghost use Rattle.authority_calls.specs.Methods.{row_seen, row_of, is_asked, method_named};

/// The object path of the authority.
pub const AUTHORITY_PATH: &str = "/org/freedesktop/PolicyKit1/Authority";

/// The interface of the reference manual.
pub const AUTHORITY: &str = "org.freedesktop.PolicyKit1.Authority";

/// This project's own interface.
pub const PROFILE: &str = "org.freedesktop.PolicyKit1.Profile";

/// A method of the authority, named by its member.
///
/// The last two are of this project's own interface, the others of the interface
/// org.freedesktop.PolicyKit1.Authority in the reference manual.
#[derive(Clone, Copy, Debug, PartialEq, Eq)]
pub enum Method {
    CheckAuthorization,
    CancelCheckAuthorization,
    RegisterAuthenticationAgent,
    UnregisterAuthenticationAgent,
    AuthenticationAgentResponse,
    EnumerateActions,
    EnumerateTemporaryAuthorizations,
    RevokeTemporaryAuthorizations,
    RevokeTemporaryAuthorizationById,
    Announce,
    Reload,
}

/// What a method is called, and its signatures.
#[derive(Clone, Copy, Debug)]
pub struct MethodRow {
    /// The interface.
    pub interface: &'static str,
    /// The member.
    pub name: &'static str,
    /// The signature of the arguments.
    pub takes: &'static str,
    /// The signature of the reply.
    pub gives: &'static str,
}

/// A row of the table.
fn row(
    interface: &'static str,
    name: &'static str,
    takes: &'static str,
    gives: &'static str,
) -> MethodRow
    ensures exact { row_seen result ≡ record { interface = interface.now; name = name.now; takes = takes.now; gives = gives.now } }
{
    MethodRow {
        interface,
        name,
        takes,
        gives,
    }
}

impl Method {
    /// All methods.
    pub const ALL: [Method; 11] = [
        Method::CheckAuthorization,
        Method::CancelCheckAuthorization,
        Method::RegisterAuthenticationAgent,
        Method::UnregisterAuthenticationAgent,
        Method::AuthenticationAgentResponse,
        Method::EnumerateActions,
        Method::EnumerateTemporaryAuthorizations,
        Method::RevokeTemporaryAuthorizations,
        Method::RevokeTemporaryAuthorizationById,
        Method::Announce,
        Method::Reload,
    ];

    /// The row of the method.
    pub fn row(self) -> MethodRow
        ensures row { row_seen result ≡ row_of self }
    {
        match self {
            Method::CheckAuthorization => {
                row(
                    AUTHORITY,
                    "CheckAuthorization",
                    "(sa{sv})sa{ss}us",
                    "(bba{ss})",
                )
            }
            Method::CancelCheckAuthorization => {
                row(AUTHORITY, "CancelCheckAuthorization", "s", "")
            }
            Method::RegisterAuthenticationAgent => {
                row(AUTHORITY, "RegisterAuthenticationAgent", "(sa{sv})ss", "")
            }
            Method::UnregisterAuthenticationAgent => {
                row(AUTHORITY, "UnregisterAuthenticationAgent", "(sa{sv})s", "")
            }
            Method::AuthenticationAgentResponse => {
                row(AUTHORITY, "AuthenticationAgentResponse", "s(sa{sv})", "")
            }
            Method::EnumerateActions => row(
                AUTHORITY,
                "EnumerateActions",
                "s",
                "a(ssssssuuua{ss})",
            ),
            Method::EnumerateTemporaryAuthorizations => {
                row(
                    AUTHORITY,
                    "EnumerateTemporaryAuthorizations",
                    "(sa{sv})",
                    "a(ss(sa{sv})tt)",
                )
            }
            Method::RevokeTemporaryAuthorizations => {
                row(AUTHORITY, "RevokeTemporaryAuthorizations", "(sa{sv})", "")
            }
            Method::RevokeTemporaryAuthorizationById => {
                row(AUTHORITY, "RevokeTemporaryAuthorizationById", "s", "")
            }
            Method::Announce => row(PROFILE, "Announce", "ut", "s"),
            Method::Reload => row(PROFILE, "Reload", "", ""),
        }
    }

    /// Whether a call of this interface and this member asks for the method. A call without an
    /// interface asks by its member alone (the D-Bus Specification, "Message Types").
    fn is_asked(self, interface: Option<&[u8]>, member: &[u8]) -> bool
        ensures exact { result ≡ is_asked (option_map (λ b. b.now) interface.entry) member.now self }
    {
        let row = self.row();
        match interface {
            None => row.name.as_bytes() == member,
            Some(interface) => row.interface.as_bytes() == interface
                && row.name.as_bytes() == member,
        }
    }
}

/// The method that a call of this interface and this member asks for, and `None` exactly for no
/// method. A call without an interface asks by its member alone.
pub fn method_named(interface: Option<&[u8]>, member: &[u8]) -> Option<Method>
    ensures exact { result ≡ method_named (option_map (λ b. b.now) interface.entry) member.now }
{
    let methods = Method::ALL;
    methods
        .iter()
        .copied()
        .find(|method| method.is_asked(interface, member))
}
