// What a desk is asked about its connections, agents, temporary authorizations and challenges.
use crate::row::{Row, Wrong};
use crate::sending::key;
use agent_registry::AgentRegistry;
use authority_desk::Desk;
use authority_model::{Agent, GrantRow, Key, Pending};
use challenge_book::ChallengeBook;
use grant_store::GrantStore;
use peer_book::PeerBook;

/// The place of a row in its table.
fn place(row: &mut Row) -> usize {
    row.number(u64::MAX) as usize
}

/// `uid N`, `announced N`, `departed N`, `sent N`, `place N SERIAL`, `collected BY N`
fn ask_connection(row: &mut Row, name: &[u8], peers: &PeerBook) -> bool {
    let caller = row.number_32();
    match name {
        b"uid" => row.field("uid", &peers.uid(caller)),
        b"announced" => row.field("announced", &peers.announced(caller)),
        b"departed" => row.field("departed", &peers.departed(caller)),
        b"sent" => row.field("sent", &peers.sent_count(caller)),
        b"place" => {
            let serial = row.number_32();
            row.field("place", &peers.place(caller, serial));
        }
        b"collected" => {
            let of = row.number_32();
            row.field("collected", &peers.collected(caller, of));
        }
        _ => return false,
    }
    true
}

/// `peer N`, `live PLACE`, `live_count`, `entries`
fn ask_peers(row: &mut Row, name: &[u8], peers: &PeerBook) -> bool {
    match name {
        b"peer" => {
            let caller = row.number_32();
            row.field("peer", &peers.peer(caller));
        }
        b"live" => {
            let place = place(row);
            row.field("live", &peers.live(place));
        }
        b"live_count" => row.field("live_count", &peers.live_len()),
        b"entries" => row.field("entries", &peers.entries()),
        _ => return false,
    }
    true
}

fn show_key(row: &mut Row, key: &Key) {
    match key {
        Key::Process { pid, start, uid } => {
            row.field("process", pid);
            row.field("start", start);
            row.field("uid", uid);
        }
        Key::Session { id, uid } => {
            row.named("session", id.bytes());
            row.field("uid", uid);
        }
    }
}

fn show_agent(row: &mut Row, agent: Option<&Agent>) {
    match agent {
        Some(agent) => {
            row.field("caller", &agent.caller);
            row.named("path", agent.path.bytes());
            row.named("locale", agent.locale.bytes());
            show_key(row, &agent.key);
        }
        None => row.word("None"),
    }
}

/// `agent KEY`, `nth_agent PLACE`, `agents`
fn ask_agents(row: &mut Row, name: &[u8], agents: &AgentRegistry) -> bool {
    match name {
        b"agent" => {
            let key = key(row);
            show_agent(row, agents.of_key(key.borrowed()));
        }
        b"nth_agent" => {
            let place = place(row);
            show_agent(row, agents.nth(place));
        }
        b"agents" => row.field("agents", &agents.count()),
        _ => return false,
    }
    true
}

fn show_grant(row: &mut Row, grant: Option<&GrantRow>) {
    match grant {
        Some(grant) => {
            row.field("id", &grant.id);
            row.named("action", grant.action.bytes());
            show_key(row, &grant.key);
            row.field("obtained", &grant.obtained);
            row.field("expires", &grant.expires);
        }
        None => row.word("None"),
    }
}

/// `grant KEY ACTION MOMENT`, `grant_id NUMBER`, `grant_text TEXT`, `nth_grant PLACE`, `grants`
fn ask_grants(row: &mut Row, name: &[u8], grants: &GrantStore) -> bool {
    match name {
        b"grant" => {
            let key = key(row);
            let action = row.text();
            let moment = row.number(u64::MAX);
            row.field("live", &grants.live(key.borrowed(), &action, moment));
            show_grant(row, grants.live_row(key.borrowed(), &action, moment));
        }
        b"grant_id" => {
            let id = row.number(u64::MAX);
            show_grant(row, grants.of_id(id));
        }
        b"grant_text" => {
            let text = row.text();
            show_grant(row, grants.of_text(&text));
        }
        b"nth_grant" => {
            let place = place(row);
            show_grant(row, grants.nth(place));
        }
        b"grants" => row.field("grants", &grants.len()),
        _ => return false,
    }
    true
}

fn show_challenge(row: &mut Row, challenge: Option<&Pending>) {
    match challenge {
        Some(pending) => {
            row.field("entry", &pending.entry);
            row.field("asker", &pending.asker);
            row.field("serial", &pending.serial);
            row.named("cancel", pending.cancel.bytes());
            row.named("action", pending.action.bytes());
            row.field("agent", &pending.agent);
            row.field("agent_serial", &pending.agent_serial);
            row.field("answered", &pending.answered);
        }
        None => row.word("None"),
    }
}

/// `cookie TEXT`, `cancel N ID`, `serial N SERIAL`, `nth PLACE`, `pending_of UID`, `challenges`
fn ask_challenges(row: &mut Row, name: &[u8], challenges: &ChallengeBook) -> bool {
    match name {
        b"cookie" => {
            let cookie = row.text();
            show_challenge(row, challenges.of_cookie(&cookie));
        }
        b"cancel" => {
            let caller = row.number_32();
            let id = row.text();
            show_challenge(row, challenges.of_cancel(caller, &id));
        }
        b"serial" => {
            let agent = row.number_32();
            let serial = row.number_32();
            show_challenge(row, challenges.of_serial(agent, serial));
        }
        b"nth" => {
            let place = place(row);
            show_challenge(row, challenges.nth(place));
        }
        b"pending_of" => {
            let uid = row.number_32();
            row.field("pending_of", &challenges.count_of_uid(uid));
        }
        b"challenges" => row.field("challenges", &challenges.len()),
        _ => return false,
    }
    true
}

/// `collect BY N`: how many outputs the entry has by which a connection collects those to another
fn collect(row: &mut Row, desk: &mut Desk) {
    let by = row.number_32();
    let of = row.number_32();
    match desk.collect(by, of) {
        Ok(entry) => row.field("outputs", &entry.outputs.len()),
        Err(_) => row.mark(Wrong::NoMemory),
    }
}

/// Asks a desk one of the questions above, or `numbers`: what is counted of its history.
pub fn ask(row: &mut Row, desk: &mut Desk) {
    match row.bytes() {
        b"collect" => collect(row, desk),
        b"numbers" => row.show(&desk.numbers()),
        name => {
            let known = ask_peers(row, name, desk.peers())
                || ask_agents(row, name, desk.agents())
                || ask_grants(row, name, desk.grants())
                || ask_challenges(row, name, desk.challenges())
                || ask_connection(row, name, desk.peers());
            if !known {
                row.mark(Wrong::Call);
            }
        }
    }
}
