// Job files as blocks of 512 bytes: their check, the lines that they hold, and how lines are packed into them.
#![tactic(auto)]

mod bytes;
mod check;
mod packer;
mod packing;
mod reader;

pub use bytes::len_before;
pub use check::{BLOCK_SIZE, Block, TEXT_MAX, check_block, next_block, sum_of, text_of};
pub use packing::{LINE_MAX, PackError, pack};
pub use reader::{PlacedLine, Reader, split_lines};
