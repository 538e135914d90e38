// Messages that are longer than a message may be.
ghost use Rattle.std.specs.Prelude.{◌≡◌};
ghost use Rattle.authority_messages.specs.Outgoing.{outgoing};
ghost use Rattle.authority_messages.specs.Messages.{is_over as is_over_limit};

use dbus_values::{MAX_MESSAGE, WireOut, message_size};

/// Whether a message would be longer than a message may be.
pub fn is_over(out: &WireOut) -> bool
    ensures over { result ≡ is_over_limit (outgoing out.now) }
{
    message_size(out) > MAX_MESSAGE as u64
}
