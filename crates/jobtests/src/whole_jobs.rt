// Packing lines, and listing whole jobs.
use blocks::{BLOCK_SIZE, PackError, pack, split_lines};
use jobs::list_job;
use std::process::Abort;
use std::test::Fail;

// Whether the listing of a job is this text.
fn lists(
    rt: &(impl Abort + AllocGlobal),
    job: &[u8],
    text: &[u8],
    refused: usize,
) -> Result<(), Fail> {
    let listing = list_job(rt.alloc(), job)?;
    assert!(rt; listing.text.as_slice() == text);
    assert_eq!(rt; listing.refused, refused);
    Ok(())
}

#[test]
fn a_job_of_nothing(rt: HostRuntime) -> Result<(), Fail> {
    lists(&rt, b"", b"blocks 0 lines 0 refused 0\n", 0)?;
    lists(
        &rt,
        b"x",
        b"refused 1 block 0 line 0\nblocks 0 lines 0 refused 1\n",
        1,
    )?;
    let lines = split_lines(rt.alloc(), b"")?;
    let job = pack(rt.alloc(), lines.as_slice())?;
    assert!(rt; job.is_empty());
    Ok(())
}

#[test]
fn a_line_that_is_no_order(rt: HostRuntime) -> Result<(), Fail> {
    let job = pack(rt.alloc(), &[b"fill", b"fill \xff", b"note \xff"])?;
    let text =
        b"block 0 line 1: fill\nrefused 5 block 0 line 2\nblock 0 line 3: note \xff\nblocks 1 lines 3 refused 1\n";
    lists(&rt, job.as_slice(), text, 1)
}

#[test]
fn a_second_block_that_is_not_the_next(rt: HostRuntime) -> Result<(), Fail> {
    let mut job = pack(rt.alloc(), &[b"fill"])?;
    let again = pack(rt.alloc(), &[b"fill"])?;
    job.extend_from_slice(again.as_slice())?;
    let text = b"block 0 line 1: fill\nrefused 3 block 1 line 0\nblocks 1 lines 1 refused 1\n";
    lists(&rt, job.as_slice(), text, 1)
}

#[test]
fn lines_that_just_fit(rt: HostRuntime) -> Result<(), Fail> {
    let long = [b'a'; 503];
    let longer = [b'a'; 504];
    assert_eq!(rt; pack(rt.alloc(), &[&long])?.len(), BLOCK_SIZE);
    assert_eq!(rt;
        pack(rt.alloc(), &[&long[0..251], &long[0..251]])?.len(),
        BLOCK_SIZE
    );
    assert_eq!(rt;
        pack(rt.alloc(), &[&long[0..251], &long[0..252]])?.len(),
        2 * BLOCK_SIZE
    );
    assert_eq!(rt;
        pack(rt.alloc(), &[b"fill", &longer]).err(),
        Some(PackError::LineTooLong { line: 1 })
    );
    assert_eq!(rt;
        pack(rt.alloc(), &[b"a\nb"]).err(),
        Some(PackError::LineBroken { line: 0 })
    );
    Ok(())
}

// Whether packing these lines fails, and says this.
fn fails(rt: &(impl Abort + AllocGlobal), lines: &[&[u8]], text: &str) -> Result<(), Fail> {
    let fault = pack(rt.alloc(), lines)
        .err()
        .ok_or("the lines were packed")?;
    assert!(rt; format!(in rt.alloc(); "{fault}")?.as_str() == text);
    Ok(())
}

#[test]
fn what_people_are_told(rt: HostRuntime) -> Result<(), Fail> {
    let longer = [b'a'; 504];
    fails(&rt, &[b"fill", &longer], "line 2 has more than 503 bytes")?;
    fails(&rt, &[b"a\nb"], "line 1 holds a line break")?;
    let many = format!(in rt.alloc(); "{}", PackError::TooManyBlocks)?;
    assert!(rt; many.as_str() == "the lines fill more than 65,536 blocks");
    let full = format!(in rt.alloc(); "{}", PackError::OutOfMemory)?;
    assert!(rt; full.as_str() == "out of memory");
    Ok(())
}

#[test]
fn lines_of_a_text(rt: HostRuntime) -> Result<(), Fail> {
    assert_eq!(rt; split_lines(rt.alloc(), b"")?.len(), 0);
    assert_eq!(rt; split_lines(rt.alloc(), b"\n")?.len(), 1);
    assert_eq!(rt; split_lines(rt.alloc(), b"a\nb")?.len(), 2);
    assert_eq!(rt; split_lines(rt.alloc(), b"a\nb\n")?.len(), 2);
    Ok(())
}
