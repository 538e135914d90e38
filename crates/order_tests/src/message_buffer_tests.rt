// A source in pieces of each size gives the same.
use memory_outside::ByteSource;
use source_buffer::{Filled, MessageBuffer};
use std::test::Fail;

#[test]
fn bytes_come_in_any_pieces(rt: HostRuntime) -> Result<(), Fail> {
    let alloc = rt.alloc();
    for piece in 1..9usize {
        let mut source = ByteSource::new(b"abcdefgh".to_vec(alloc)?, piece, Vec::new(alloc));
        let mut buffer = MessageBuffer::new(alloc)?;
        assert_eq!(rt; buffer.fill(&mut source, 3), Filled::There);
        buffer.take(2);
        assert_eq!(rt; buffer.fill(&mut source, 6), Filled::There);
        assert_eq!(rt; buffer.bytes(), b"cdefgh".as_slice());
        assert_eq!(rt; buffer.fill(&mut source, 7), Filled::End);
        assert_eq!(rt; buffer.bytes(), b"cdefgh".as_slice());
    }
    Ok(())
}
