// Whether a check allows that a user is asked.
ghost use Rattle.std.specs.Prelude.{◌≡◌};
ghost use Rattle.authority_model.specs.Interaction.{allows_interaction};

/// The flag of a check that allows that a user is asked: AllowUserInteraction of
/// CheckAuthorizationFlags in the reference manual, which is bit 0.
pub const ALLOW_USER_INTERACTION: u32 = 1;

/// Whether the flags of a check allow that a user is asked. The other bits are ignored.
pub fn allows_interaction(flags: u32) -> bool
    ensures allows { result ≡ allows_interaction flags }
{
    flags % (2 * ALLOW_USER_INTERACTION) == ALLOW_USER_INTERACTION
}
