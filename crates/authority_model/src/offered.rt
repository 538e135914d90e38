// Who may answer a challenge.
ghost use Rattle.std.specs.Prelude.{◌≡◌};
ghost use Rattle.authority_model.specs.Verdicts.{offers};

use pk_types::Identity;

/// Whether an identity is among those that are offered.
pub fn offers(offered: &[Identity], identity: Identity) -> bool
    ensures offers { result ≡ offers offered.now identity }
{
    offered.iter().any(|other| identity == *other)
}
