// What is known of each connection, and which are live.
ghost use Rattle.std.specs.Prelude.{◌≡◌, ◌==◌, ℕ, Some, if◌then◌else◌, find, OnOk};
ghost use Rattle.std.specs.Option.{option_copied};
ghost use Rattle.std.specs.List.Sorted.{IsStrictlySortedBy};
ghost use Rattle.std.specs.Ordering.{nat_cmp};
ghost use Rattle.peer_changes.specs.Next.{known_by, live_after, row_after};
ghost use Rattle.plain_view.specs.Plain.{peer_among};

use authority_model::{Entry, World};
use entry_changes::Peer;
use peer_changes::{known_after, no_longer_live, now_live};
use pk_types::NoMemory;
use plain_view::PeerRow;

/// The row of a connection.
fn row_of(rows: &[PeerRow], caller: u32) -> Option<&PeerRow>
    ensures first { option_copied result ≡ find (λ r. r.caller == caller) rows.now }
{
    rows.iter().find(|row| row.caller == caller)
}

/// What is known of a connection.
fn peer_of(rows: &[PeerRow], caller: u32) -> Option<Peer>
    ensures peer { result ≡ peer_among rows.now caller }
{
    match row_of(rows, caller) {
        Some(row) => Some(row.peer),
        None => None,
    }
}

/// Puts down what is known of a connection now.
fn put_peer(rows: &mut Vec<PeerRow>, caller: u32, peer: Peer) -> Result<(), NoMemory>
    ensures put { OnOk result ((c : ℕ) → peer_among rows.new.items c ≡ (if caller == c then Some peer else peer_among rows.old.items c)) }
{
    rows.retain(|row| row.caller != caller);
    rows.push(PeerRow { caller, peer })?;
    Ok(())
}

/// Carries the live connections on, where this is known of a connection now.
fn carry_live(live: &mut Vec<u32>, caller: u32, peer: Peer) -> Result<(), NoMemory>
    requires rising { IsStrictlySortedBy nat_cmp live.old.items }
    ensures live { OnOk result (live.new.items ≡ live_after caller (Some peer) live.old.items) }
{
    if peer.departed {
        no_longer_live(live, caller);
        Ok(())
    } else {
        now_live(live, caller)
    }
}

/// Carries what is known of connections on by an entry, in the world in force after it.
pub fn carry_peers(
    rows: &mut Vec<PeerRow>,
    live: &mut Vec<u32>,
    entry: &Entry,
    world: &World,
) -> Result<(), NoMemory>
    requires rising { IsStrictlySortedBy nat_cmp live.old.items }
    ensures rows { OnOk result ((c : ℕ) → peer_among rows.new.items c
        ≡ known_by entry.now.caller (row_after world.now (peer_among rows.old.items entry.now.caller) entry.now.event) c (peer_among rows.old.items c)) }
    ensures live { OnOk result (live.new.items
        ≡ live_after entry.now.caller (row_after world.now (peer_among rows.old.items entry.now.caller) entry.now.event) live.old.items) }
{
    let was = peer_of(rows.as_slice(), entry.caller);
    let Some(peer) = known_after(world, was, &entry.event) else {
        return Ok(());
    };
    put_peer(rows, entry.caller, peer)?;
    carry_live(live, entry.caller, peer)
}
