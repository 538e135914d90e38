// Counted bytes.
ghost use Rattle.std.specs.Prelude.{◌+◌, ◌*◌, ◌^◌, ◌<◌, ◌≤◌, ◌≡◌, ◌↔◌, true, length};
ghost use Rattle.authority_model.specs.declared.journal.History.{History};
ghost use Rattle.authority_model.specs.declared.journal.Limits.{Limits};
ghost use Rattle.authority_model.specs.Costs.{bytes_of, IsFull};
ghost use Rattle.authority_model.specs.Entering.{counted_bytes, is_full};
ghost use Rattle.authority_model.specs.Items.{items_of};
ghost use Rattle.authority_model.specs.Legal.{IsLegal};
ghost use Rattle.authority_laws.specs.Counted.{outputs_in};

/// A journal counts at least 64 bytes for each entry and each output, as long as it counts fewer
/// than 2^62; so one that is below its limit of bytes has few outputs.
pub fn outputs_are_counted()
    ensures counted { (h : History) → bytes_of h < 2 ^ 62 → 64 * (length h.entries + outputs_in h) ≤ bytes_of h }
{}

/// The counted bytes of a legal journal are those of its items, and it is full exactly where its
/// items are.
pub fn items_are_counted()
    ensures bytes { (h : History) → IsLegal h → bytes_of h ≡ counted_bytes (items_of h) }
    ensures full { (limits : Limits) (h : History) → IsLegal h → (IsFull limits h ↔ (is_full limits (items_of h) ≡ true)) }
{}
