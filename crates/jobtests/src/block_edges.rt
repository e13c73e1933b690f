// Which 512 bytes are a block, and what its lines are.
use blocks::{BLOCK_SIZE, Block, PlacedLine, Reader, check_block, next_block, sum_of};
use terms::Refusal;

// A block whose check is right: its number, the used length that it names, and its text.
fn block_with(number: u8, used: u16, text: &[u8]) -> Block {
    let mut block = [0u8; BLOCK_SIZE];
    block[0] = number;
    block[2..4].copy_from_slice(&used.to_le_bytes());
    let room = text.len().min(504);
    block[4..4 + room].copy_from_slice(&text[..room]);
    let check = sum_of(&block);
    block[508..].copy_from_slice(&check.to_le_bytes());
    block
}

// A text of 504 bytes that ends in byte 10.
fn full_text() -> [u8; 504] {
    let mut text = [b'a'; 504];
    text[503] = b'\n';
    text
}

#[test]
fn lengths(rt: HostRuntime) {
    assert_eq!(rt; check_block(&block_with(0, 0, b""), 0), Ok(()));
    assert_eq!(rt; check_block(&block_with(0, 1, b"\n"), 0), Ok(()));
    assert_eq!(rt; check_block(&block_with(0, 504, &full_text()), 0), Ok(()));
    assert_eq!(rt;
        check_block(&block_with(0, 505, &full_text()), 0),
        Err(Refusal::BadText)
    );
    assert_eq!(rt;
        check_block(&block_with(0, 65535, &full_text()), 0),
        Err(Refusal::BadText)
    );
}

#[test]
fn texts(rt: HostRuntime) {
    assert_eq!(rt;
        check_block(&block_with(0, 4, b"fill"), 0),
        Err(Refusal::BadText)
    );
    assert_eq!(rt; check_block(&block_with(0, 5, b"fill\n"), 0), Ok(()));
    assert_eq!(rt;
        check_block(&block_with(0, 0, b"\n"), 0),
        Err(Refusal::BadText)
    );
    assert_eq!(rt;
        check_block(&block_with(0, 5, b"fill\n fill"), 0),
        Err(Refusal::BadText)
    );
}

#[test]
fn numbers_and_checks(rt: HostRuntime) {
    assert_eq!(rt; check_block(&block_with(7, 0, b""), 7), Ok(()));
    assert_eq!(rt;
        check_block(&block_with(7, 0, b""), 8),
        Err(Refusal::BlockNotNext)
    );
    assert_eq!(rt;
        check_block(&block_with(0, 0, b""), 65536),
        Err(Refusal::BlockNotNext)
    );
    let mut block = block_with(7, 0, b"");
    block[507] = 1;
    assert_eq!(rt; check_block(&block, 8), Err(Refusal::CheckDiffers));
    assert_eq!(rt; sum_of(&block), 7 + 508);
}

#[test]
fn cut_blocks(rt: HostRuntime) {
    let block = block_with(0, 0, b"");
    assert_eq!(rt;
        next_block(&block[0..0], 0).err(),
        Some(Refusal::EndsInsideBlock)
    );
    assert_eq!(rt;
        next_block(&block[0..1], 0).err(),
        Some(Refusal::EndsInsideBlock)
    );
    assert_eq!(rt;
        next_block(&block[0..511], 0).err(),
        Some(Refusal::EndsInsideBlock)
    );
    assert!(rt; next_block(&block, 0).is_ok());
}

#[test]
fn lines_with_their_places(rt: HostRuntime) {
    let block = block_with(0, 8, b"use 1\n\n\n");
    let mut reader = Reader::new(&block);
    assert_eq!(rt;
        reader.next(),
        Some(PlacedLine {
            offset: 4,
            bytes: b"use 1"
        })
    );
    assert_eq!(rt;
        reader.next(),
        Some(PlacedLine {
            offset: 10,
            bytes: b""
        })
    );
    assert_eq!(rt; reader.next().map(|line| line.offset), Some(11));
    assert!(rt; reader.next().is_none());
}
