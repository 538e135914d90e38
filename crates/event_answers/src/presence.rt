// Connections that are live.
ghost use Rattle.std.specs.Prelude.{◌≡◌, false, not, List, MatchOption};
ghost use Rattle.std.specs.Option.{option_map_or};
ghost use Rattle.authority_model.specs.declared.journal.Item.{Item};
ghost use Rattle.authority_model.specs.Peers.{live};
ghost use Rattle.journal_view.specs.Seen.{IsSeenOf};
ghost use Rattle.event_answers.specs.Asked.{IsLivePeer, if_present};

use entry_changes::Peer;
use journal_view::JournalView;

/// The row of a connection, if it has not departed.
fn present(peer: Option<Peer>) -> Option<Peer>
    ensures present { result ≡ if_present peer }
{
    let peer = peer?;
    if peer.is_live() { Some(peer) } else { None }
}

/// The row of a connection that is live.
#[tactic(auto, using(crate::proofs::Callers::present_is))]
pub fn live_peer<V: JournalView>(view: &V, caller: u32) -> Option<Peer>
    ensures live { (past : List Item) → IsSeenOf past (V.seen view.now)
        → MatchOption result (live past caller ≡ false) (IsLivePeer past caller) }
{
    present(view.peer(caller))
}

/// Whether there is a row of a connection that has not departed.
fn is_present(peer: Option<Peer>) -> bool
    ensures present { result ≡ option_map_or (λ p. not p.departed) peer false }
{
    match peer {
        Some(peer) => peer.is_live(),
        None => false,
    }
}

/// Whether a connection is live.
#[tactic(auto, using(crate::proofs::Callers::live_seen))]
pub fn is_live<V: JournalView>(view: &V, caller: u32) -> bool
    ensures live { (past : List Item) → IsSeenOf past (V.seen view.now) → result ≡ live past caller }
{
    is_present(view.peer(caller))
}
