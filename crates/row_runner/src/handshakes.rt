// The authentication of a connection: the server's half, the client's half, and their lines.
use crate::numbers::number_128;
use crate::row::{Row, Wrong};
use link_handshake::{
    ClientShake, ClientStep, Handshake, ShakeReply, ShakeStep, client_first, reply_bytes,
};

/// `handshake UID BYTES`: the steps of the server for a door of this user, each with the place of its
/// byte. The step `More` is not written.
pub fn handshake(row: &mut Row) {
    let mut shake = Handshake::new(row.number_32());
    for (at, b) in row.bytes().iter().enumerate() {
        let step = shake.feed(*b);
        if step != ShakeStep::More {
            row.show(&at);
            row.show(&step);
        }
    }
}

/// `client_handshake BYTES`: the steps of the client, as `handshake` writes those of the server.
pub fn client_handshake(row: &mut Row) {
    let mut shake = ClientShake::new();
    for (at, b) in row.bytes().iter().enumerate() {
        let step = shake.feed(*b);
        if step != ClientStep::More {
            row.show(&at);
            row.show(&step);
        }
    }
}

/// `client_first UID`
pub fn client_first_bytes(row: &mut Row) {
    let uid = row.number_32();
    match client_first(row.alloc, uid) {
        Ok(bytes) => row.quote(bytes.as_slice()),
        Err(_) => row.mark(Wrong::NoMemory),
    }
}

fn reply(row: &mut Row) -> ShakeReply {
    match row.bytes() {
        b"Ok" => ShakeReply::Ok,
        b"Data" => ShakeReply::Data,
        b"Rejected" => ShakeReply::Rejected,
        b"ErrorLine" => ShakeReply::ErrorLine,
        _ => {
            row.mark(Wrong::Word);
            ShakeReply::ErrorLine
        }
    }
}

/// `reply_line REPLY GUID`
pub fn reply_line(row: &mut Row) {
    let reply = reply(row);
    let guid = number_128(row);
    row.quote(reply_bytes(reply, guid).bytes());
}
