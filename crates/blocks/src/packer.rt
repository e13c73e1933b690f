// Puts lines into blocks, one after the other.
ghost use Rattle.std.specs.Prelude.{◌≡◌, ◌≤◌, [], length};

use crate::check::{BLOCK_SIZE, Block, TEXT_END, TEXT_MAX, TEXT_START, USED_AT, sum_of};
use crate::packing::PackError;
use std::alloc::{AllocError, Global};

// A job that is being packed: the full blocks are in `job`, and the lines of the open one in `text`.
#[derive(Drop)]
pub(crate) struct Packer {
    job: Vec<u8>,
    number: u16,
    text: Vec<u8>,
    ghost fits: { length text.items ≤ 504 },
}

impl Packer {
    ghost use Rattle.std.specs.Prelude.{true, Ok, OnOk};
    ghost use Rattle.blocks.specs.Layout.{ended, verdict};
    ghost use Rattle.blocks.specs.Packing.{block_of};
    ghost use Rattle.blocks.specs.Packer.{Adds, Finishes, Seals};

    pub(crate) fn new(heap: Global) -> Packer
        ensures { (result.job.items ≡ []) × (result.number ≡ 0) × (result.text.items ≡ []) }
    {
        Packer {
            job: Vec::new(heap),
            number: 0,
            text: Vec::new(heap),
        }
    }

    // The open block, as it is when it gets no more lines.
    fn block(&self) -> Block
        ensures value { result ≡ block_of self.now.number self.now.text.items }
        ensures passes { ended self.now.text.items ≡ true → verdict result self.now.number ≡ Ok tt }
    {
        let number = self.number;
        let used = self.text.len();
        let mut block = [0; BLOCK_SIZE];
        block[..USED_AT].copy_from_slice(&number.to_le_bytes());
        // `as` loses nothing here, and `try_from` would answer for a length that cannot be.
        block[USED_AT..TEXT_START].copy_from_slice(&(used as u16).to_le_bytes());
        block[TEXT_START..TEXT_START + used].copy_from_slice(&self.text);
        let check = sum_of(&block);
        block[TEXT_END..].copy_from_slice(&check.to_le_bytes());
        block
    }

    // Puts the open block behind the full ones.
    fn seal(&mut self) -> Result<(), AllocError>
        ensures job { OnOk result (Seals self.old self.new.job.items) }
        ensures rest { (self.new.number ≡ self.old.number) × (self.new.text ≡ self.old.text) }
    {
        let block = self.block();
        self.job.extend_from_slice(&block)
    }

    // Puts a line into the open block, or into the next, where the open one has no room for it.
    pub(crate) fn add(&mut self, line: &[u8]) -> Result<(), PackError>
        requires { length line.now ≤ 503 }
        ensures { Adds self.old line.now result self.new }
    {
        if self.text.len() + line.len() + 1 > TEXT_MAX {
            self.seal()?;
            self.number = self.number.checked_add(1).ok_or(PackError::TooManyBlocks)?;
            self.text.clear();
        }
        self.text.extend_from_slice(line)?;
        self.text.extend_from_slice(b"\n")?;
        Ok(())
    }

    // The whole job, with the open block, unless that is empty.
    pub(crate) fn finish(mut self) -> Result<Vec<u8>, PackError>
        ensures { Finishes self result }
    {
        if !self.text.is_empty() {
            self.seal()?;
        }
        Ok(self.job)
    }
}
