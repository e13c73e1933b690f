// A listing in the making.
ghost use Rattle.std.specs.Prelude.{◌≡◌, ◌+◌, ◌^◌, ◌<◌, ◌≤◌, [], ◌++◌, OnOk};
ghost use Rattle.jobs.specs.Listings.{order_at, refused_at, summary};
ghost use Rattle.jobs.specs.Drafts.{Adds, Prints};

use blocks::{Block, Reader};
use lines::read_line;
use std::alloc::{AllocError, Global};
use terms::Refusal;

// What is listed so far: the text, how many blocks have passed, how many lines came up to the one at hand, and how many
// refusals are listed.
#[derive(Drop)]
pub(crate) struct Draft {
    pub(crate) text: Vec<u8>,
    pub(crate) blocks: usize,
    pub(crate) lines: usize,
    pub(crate) refused: usize,
}

impl Draft {
    pub(crate) fn new(heap: Global) -> Draft
        ensures text { result.text.items ≡ [] }
        ensures blocks { result.blocks ≡ 0 }
        ensures lines { result.lines ≡ 0 }
        ensures refused { result.refused ≡ 0 }
    {
        Draft {
            text: Vec::new(heap),
            blocks: 0,
            lines: 0,
            refused: 0,
        }
    }

    // Lists the line at hand as an order.
    fn accept(&mut self, bytes: &[u8]) -> Result<(), AllocError>
        ensures { OnOk result (Prints self.old (order_at self.old.blocks self.old.lines bytes.now) self.new) }
    {
        let block = self.blocks;
        let line = self.lines;
        let place = format!(in *self.text.allocator(); "block {block} line {line}: ")?;
        self.text.extend_from_slice(place.as_bytes())?;
        self.text.extend_from_slice(bytes)?;
        self.text.extend_from_slice(b"\n")
    }

    // Lists a refusal of a line, or of the block at hand as line 0.
    pub(crate) fn refuse(&mut self, refusal: Refusal, line: usize) -> Result<(), AllocError>
        requires { self.old.refused + 1 < 2 ^ 64 }
        ensures { OnOk result (Prints self.old (refused_at refusal self.old.blocks line) self.new) }
    {
        let number = refusal.number();
        let block = self.blocks;
        let text = format!(in *self.text.allocator();
            "refused {number} block {block} line {line}\n"
        )?;
        self.refused += 1;
        self.text.extend_from_slice(text.as_bytes())
    }

    // Lists the lines of the next block, which has passed.
    pub(crate) fn list_block(&mut self, block: &Block) -> Result<(), AllocError>
        requires blocks { self.old.blocks + 1 < 2 ^ 64 }
        requires lines { self.old.lines + 504 < 2 ^ 64 }
        requires few { self.old.refused ≤ self.old.lines }
        ensures { OnOk result (Adds block.now self.old self.new) }
    {
        for line in Reader::new(block) {
            // The count goes on through the job, so that no `enumerate` over one block has it.
            self.lines += 1;
            match read_line(line.bytes) {
                Ok(_) => self.accept(line.bytes)?,
                Err(refusal) => self.refuse(refusal, self.lines)?,
            }
        }
        self.blocks += 1;
        Ok(())
    }

    // Puts the last line behind the listing.
    pub(crate) fn summarize(&mut self) -> Result<(), AllocError>
        ensures text { OnOk result (self.new.text.items ≡ self.old.text.items ++ summary self.old.blocks self.old.lines self.old.refused) }
        ensures refused { self.new.refused ≡ self.old.refused }
    {
        let blocks = self.blocks;
        let lines = self.lines;
        let refused = self.refused;
        let text = format!(in *self.text.allocator();
            "blocks {blocks} lines {lines} refused {refused}\n"
        )?;
        self.text.extend_from_slice(text.as_bytes())
    }
}
