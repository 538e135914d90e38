// The kept cause of the lock, as the slots and the loader found it.
ghost use Rattle.std.specs.Prelude.{◌≡◌, ◌<◌, None, Some, All, IfNone, IfSome, ℕ, length, slice_index_or};
ghost use Rattle.authority_service.specs.Running.{ended_loader, ended_slot, refused_stop};
ghost use Rattle.service_slots.specs.declared.opening.ShutSlot.{ShutSlot as TheSlot};

use history_lock::EndCause;
use serve_loader::LoaderEnd;
use service_slots::{ShutSlot, SlotStop};

/// The cause by which the lock stopped a slot, if it did.
fn ended_slot(slot: &ShutSlot) -> Option<EndCause>
    ensures { result ≡ ended_slot slot.now.stop }
{
    match slot.stop {
        Some(SlotStop::Ended { cause }) => Some(cause),
        _ => None,
    }
}

/// The first cause by which the lock stopped one of the slots.
pub fn ended_slots(slots: &[ShutSlot]) -> Option<EndCause>
    ensures found { IfSome result (λ cause. (k : ℕ) × (k < length slots.now) × ((d : TheSlot) → ended_slot (slice_index_or slots.now k d).stop ≡ Some cause)) }
    ensures none { IfNone result (All (λ s. ended_slot s.stop ≡ None) slots.now) }
{
    for slot in slots {
        if let Some(cause) = ended_slot(slot) {
            return Some(cause);
        }
    }
    None
}

/// The cause by which the lock ended the loader, if it did.
pub fn ended_loader(end: LoaderEnd) -> Option<EndCause>
    ensures { result ≡ ended_loader end }
{
    match end {
        LoaderEnd::Stopped => None,
        LoaderEnd::Ended { cause } => Some(cause),
    }
}
