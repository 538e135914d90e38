// What is known of connections, by rows.
ghost use Rattle.std.specs.Prelude.{◌≡◌, ◌==◌, find};
ghost use Rattle.std.specs.Option.{option_copied};
ghost use Rattle.plain_view.specs.Plain.{peer_among, count_among};

use entry_changes::Peer;

/// A connection that ever connected.
#[derive(Clone, Copy, Debug, PartialEq, Eq)]
pub struct PeerRow {
    /// Its number.
    pub caller: u32,
    /// What is known of it.
    pub peer: Peer,
}

/// How many outputs went to a connection.
#[derive(Clone, Copy, Debug, PartialEq, Eq)]
pub struct SentRow {
    /// The number of the connection.
    pub caller: u32,
    pub count: u32,
}

/// The row of a connection.
fn row_of(rows: &[PeerRow], caller: u32) -> Option<&PeerRow>
    ensures first { option_copied result ≡ find (λ r. r.caller == caller) rows.now }
{
    rows.iter().find(|row| row.caller == caller)
}

/// What is known of a connection.
pub fn peer_of(rows: &[PeerRow], caller: u32) -> Option<Peer>
    ensures peer { result ≡ peer_among rows.now caller }
{
    match row_of(rows, caller) {
        Some(row) => Some(row.peer),
        None => None,
    }
}

/// The row of what went to a connection.
fn sent_row(rows: &[SentRow], caller: u32) -> Option<&SentRow>
    ensures first { option_copied result ≡ find (λ r. r.caller == caller) rows.now }
{
    rows.iter().find(|row| row.caller == caller)
}

/// How many outputs went to a connection; none to one without a row.
pub fn sent_count(rows: &[SentRow], caller: u32) -> u32
    ensures count { result ≡ count_among rows.now caller }
{
    match sent_row(rows, caller) {
        Some(row) => row.count,
        None => 0,
    }
}
