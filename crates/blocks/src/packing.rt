// Packs lines into blocks.
ghost use Rattle.std.specs.Prelude.{◌≡◌};
ghost use Rattle.blocks.specs.declared.packing.PackError.TheVariants.{OutOfMemory};
ghost use Rattle.blocks.specs.Lines.{lent};
ghost use Rattle.blocks.specs.Packing.{Packs, checked, items_of};

use crate::check::TEXT_MAX;
use crate::packer::Packer;
use std::alloc::{AllocError, Global};
use thiserror::Error;

// The longest line that fits a block, with a byte 10 behind it.
pub const LINE_MAX: usize = TEXT_MAX - 1;

// Why lines cannot be packed. Lines are counted from 0, and from 1 where a person is told.
#[derive(Clone, Copy, Debug, PartialEq, Eq, Error)]
pub enum PackError {
    // The line has more than 503 bytes, so that it fits no block.
    #[error("line {} has more than {LINE_MAX} bytes", .line.saturating_add(1))]
    LineTooLong { line: usize },
    // The line holds a byte 10, which would make two lines of it.
    #[error("line {} holds a line break", .line.saturating_add(1))]
    LineBroken { line: usize },
    // There are more than 65,536 blocks, and no number is left.
    #[error("the lines fill more than 65,536 blocks")]
    TooManyBlocks,
    #[error("out of memory")]
    OutOfMemory,
}

// Not derived: a derived `From` has no contract that says which error comes of it.
impl From<AllocError> for PackError {
    ghost from_gives = { λ _ r. r ≡ OutOfMemory };

    fn from(_e: AllocError) -> PackError {
        PackError::OutOfMemory
    }
}

#[tactic(auto, using(std::proofs::lemmas::Bool::Decides::nat_tests, crate::proofs::Cuts::lent_from, crate::proofs::Cuts::broken_if))]
fn check_lines(lines: &[&[u8]]) -> Result<(), PackError>
    ensures { result ≡ checked 0 (lent lines.now) }
{
    for (i, line) in lines.iter().enumerate() {
        if line.len() > LINE_MAX {
            return Err(PackError::LineTooLong { line: i });
        }
        if line.contains(&b'\n') {
            return Err(PackError::LineBroken { line: i });
        }
    }
    Ok(())
}

// Packs lines into the blocks of a job, as many whole lines to a block as fit, in their order.
pub fn pack(heap: Global, lines: &[&[u8]]) -> Result<Vec<u8>, PackError>
    ensures { Packs (lent lines.now) (items_of result) }
{
    check_lines(lines)?;
    let mut packer = Packer::new(heap);
    for line in lines {
        packer.add(line)?;
    }
    packer.finish()
}
