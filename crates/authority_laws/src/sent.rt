// What is sent to a connection, and what of it is collected.
ghost use Rattle.std.specs.Prelude.{ℕ, ◌+◌, ◌^◌, ◌<◌, ◌≤◌, ◌≡◌, ◌≢◌, ◌++◌, ◌∷◌, true, false, List, length, take};
ghost use Rattle.authority_model.specs.declared.journal.Item.{Item};
ghost use Rattle.authority_model.specs.declared.journal.Limits.{Limits};
ghost use Rattle.authority_model.specs.Entering.{AreAllowed, is_full};
ghost use Rattle.authority_model.specs.Items.{sent};
ghost use Rattle.authority_model.specs.Legal.{Legal};
ghost use Rattle.authority_model.specs.Peers.{departed};
ghost use Rattle.authority_model.specs.Sent.{batch, collected, sent_to};
ghost use Rattle.authority_laws.specs.Batches.{AreSendable, IsBatch, greatest_load, loads_in};
ghost use Rattle.authority_laws.specs.Outputs.{AllMayGo};

/// An output goes to a connection that is live where it is sent, or it tells the loader, which is
/// connection 0, to load or to stop.
pub fn outputs_go_to_live_connections()
    ensures goes { (past : List Item) (i : Item) → Legal (i ∷ past) → AllMayGo past i.entry.outputs }
{}

/// Nothing is sent to a connection after its departure. (The loader, connection 0, is told to load
/// and to stop all the same.)
pub fn departed_are_sent_nothing()
    ensures nothing { (later past : List Item) (c : ℕ) → c ≢ 0 → Legal (later ++ past) → departed past c ≡ true → sent_to (later ++ past) c ≡ sent_to past c }
{}

/// What is sent to a connection other than 0 can be written as a message: it is not for the loader,
/// and it does not reply to the serial 0.
pub fn outputs_can_be_written()
    ensures sendable { (past : List Item) (c : ℕ) → c ≢ 0 → Legal past → AreSendable (sent_to past c) }
{}

/// Each output names a load that came before it, or none.
pub fn outputs_name_loads()
    ensures named { (past : List Item) (c : ℕ) → Legal past → greatest_load (sent_to past c) ≤ length (loads_in past) }
{}

/// A journal sent few outputs to each connection, so their numbers fit 32 bits: where it is not full,
/// and also behind the last item that it takes, which may fill it.
pub fn outputs_are_few()
    ensures few { (limits : Limits) (past : List Item) (c : ℕ) → AreAllowed limits → is_full limits past ≡ false → sent past c < 2 ^ 23 }
    ensures last { (limits : Limits) (past : List Item) (i : Item) (c : ℕ) → Legal (i ∷ past) → AreAllowed limits → is_full limits past ≡ false → sent (i ∷ past) c < 2 ^ 24 }
{}

/// What a Collect takes of a legal journal that is not full is a batch: the outputs after those that
/// were collected, with the loads that they name.
pub fn collects_take_batches()
    ensures batch { (limits : Limits) (past : List Item) (by c : ℕ) → Legal past → AreAllowed limits → is_full limits past ≡ false → IsBatch past by c (collected past by c + 1) (batch past by c) (take (greatest_load (batch past by c)) (loads_in past)) }
{}

/// Each beginning of a legal history is legal.
pub fn beginnings_are_legal()
    ensures legal { (later past : List Item) → Legal (later ++ past) → Legal past }
{}
