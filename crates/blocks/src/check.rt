// Whether 512 bytes are the next block of a job, and where its text is.
ghost use Rattle.std.specs.Prelude.{◌≡◌, ◌+◌, ◌<◌, ◌≤◌, length};
ghost use Rattle.blocks.specs.Layout.{number16, number32, check_of, used, text_of, unused, ended, zeros, good_text, verdict};
ghost use Rattle.blocks.specs.Reading.{Opens};

use terms::Refusal;

// A block is 512 bytes, its numbers little-endian: its number in two bytes, the used length in two, the text from
// offset 4 to 507, and the check in the last four.
pub const BLOCK_SIZE: usize = 512;

const NUMBER_AT: usize = 0;

pub(crate) const USED_AT: usize = 2;

pub(crate) const TEXT_START: usize = 4;

pub(crate) const TEXT_END: usize = 508;

pub const TEXT_MAX: usize = TEXT_END - TEXT_START;

pub type Block = [u8; BLOCK_SIZE];

// The check that a block has to hold: the byte at offset p counts p + 1 times, up to offset 507.
pub fn sum_of(block: &Block) -> u32
    ensures { result ≡ check_of block.now }
{
    let mut sum = 0;
    // A loop and no `sum()`: tried, and the proof that the sum fits did not close.
    for (place, b) in (1u32..).zip(&block[..TEXT_END]) {
        sum += place * u32::from(*b);
    }
    sum
}

// The number in the two bytes at a place.
fn number_at(block: &Block, place: usize) -> usize
    requires { place + 1 < 512 }
    ensures { result ≡ number16 block.now place }
{
    usize::from(u16::from_le_bytes([block[place], block[place + 1]]))
}

// The bytes from offset 4 to 507: the text, as many as the block says it uses, and those behind it.
fn split_text(block: &Block) -> (&[u8], &[u8])
    ensures text { result.0.now ≡ text_of block.now }
    ensures unused { result.1.now ≡ unused block.now }
{
    let room = &block[TEXT_START..TEXT_END];
    room.split_at(number_at(block, USED_AT).min(TEXT_MAX))
}

// The text of a block: as many bytes from offset 4 on as it says it uses, and none past offset 507.
pub fn text_of(block: &Block) -> &[u8]
    ensures { result.now ≡ text_of block.now }
{
    split_text(block).0
}

fn is_ended(text: &[u8]) -> bool
    ensures { result ≡ ended text.now }
{
    text.last().is_none_or(|b| *b == b'\n')
}

fn is_zero(bytes: &[u8]) -> bool
    ensures { result ≡ zeros bytes.now }
{
    bytes.iter().all(|b| *b == 0)
}

fn is_good_text(block: &Block) -> bool
    ensures { result ≡ good_text block.now }
{
    let (text, unused) = split_text(block);
    number_at(block, USED_AT) <= TEXT_MAX && is_ended(text) && is_zero(unused)
}

fn held_check(block: &Block) -> u32
    ensures { result ≡ number32 block.now 508 }
{
    let [.., a, b, c, d] = *block;
    u32::from_le_bytes([a, b, c, d])
}

// Refuses 512 bytes that are not the block of the number `next`.
#[tactic(auto, using(std::proofs::lemmas::Bool::Decides::nat_tests))]
pub fn check_block(block: &Block, next: usize) -> Result<(), Refusal>
    ensures { result ≡ verdict block.now next }
{
    if held_check(block) != sum_of(block) {
        return Err(Refusal::CheckDiffers);
    }
    if number_at(block, NUMBER_AT) != next {
        return Err(Refusal::BlockNotNext);
    }
    if !is_good_text(block) {
        return Err(Refusal::BadText);
    }
    Ok(())
}

// The next block of a job, whose bytes from here on are `rest`.
pub fn next_block(rest: &[u8], next: usize) -> Result<&Block, Refusal>
    ensures { Opens rest.now next result }
{
    let block = rest
        .first_chunk::<BLOCK_SIZE>()
        .ok_or(Refusal::EndsInsideBlock)?;
    check_block(block, next)?;
    Ok(block)
}
