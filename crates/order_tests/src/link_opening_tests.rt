// A worked handshake in pieces of different sizes, and each end.
use link_handshake::ShakeFault;
use link_opening::{Opening, open_link};
use memory_outside::{ByteSink, ByteSource};
use source_buffer::MessageBuffer;
use std::test::Fail;

const BAD: Opening = Opening::BadShake {
    fault: ShakeFault::BadLine,
};

#[test]
fn handshakes_are_opened(rt: HostRuntime) -> Result<(), Fail> {
    let alloc = rt.alloc();
    // What the client of the user 1000 sends; which call of the source and of the sink fails, if
    // any; how it ends; what is written; and what is left where it is read at once.
    let rows: [(&[u8], u64, u64, Opening, &[u8], &[u8]); 6] = [
        (
            b"\0AUTH EXTERNAL 31303030\r\nNEGOTIATE_UNIX_FD\r\nBEGIN\r\nl\x01\0\x01",
            0,
            0,
            Opening::Begun,
            b"OK 00000000000000000000000000000000\r\nERROR\r\n",
            b"l\x01\0\x01",
        ),
        (
            b"\0AUTH EXTERNAL 31303031\r\nNEGOTIATE_UNIX_FD\r\nBEGIN\r\n",
            0,
            0,
            BAD,
            b"REJECTED EXTERNAL\r\nERROR\r\n",
            b"",
        ),
        (
            b"\0AUTH EXTERNAL 31303030\r\nBEGIN\r",
            0,
            0,
            Opening::Cut,
            b"OK 00000000000000000000000000000000\r\n",
            b"",
        ),
        (b"", 0, 0, Opening::Cut, b"", b""),
        (
            b"\0AUTH EXTERNAL 31303030\r\nBEGIN\r\n",
            1,
            0,
            Opening::ReadFault,
            b"",
            b"",
        ),
        (
            b"\0AUTH EXTERNAL 31303030\r\nBEGIN\r\n",
            0,
            1,
            Opening::WriteFault,
            b"",
            b"BEGIN\r\n",
        ),
    ];
    for (sent, read_fails, write_fails, ends, written, left) in rows {
        for piece in [1usize, 7, 100] {
            let failing_reads = vec![in alloc; read_fails; 1]?;
            let failing_writes = vec![in alloc; write_fails; 1]?;
            let mut source = ByteSource::new(sent.to_vec(alloc)?, piece, failing_reads);
            let mut sink = ByteSink::new(alloc, 100, piece, failing_writes)?;
            let mut buffer = MessageBuffer::new(alloc)?;
            let opening = open_link(1000, 0, &mut source, &mut sink, &mut buffer);
            assert_eq!(rt; opening, ends);
            assert_eq!(rt; sink.bytes(), written);
            if piece == 100 {
                assert_eq!(rt; buffer.bytes(), left);
            }
        }
    }
    Ok(())
}
