// The lines of one block, one after the other, each with its place.
ghost use Rattle.std.specs.Prelude.{◌≡◌, ◌+◌, [], ◌∷◌, length, drop, IfOk, IfSome, MatchOption};
ghost use Rattle.blocks.specs.Lines.{CutsWhole, cut, lent, lines_in};
ghost use Rattle.blocks.specs.Reading.{to_come};

use crate::bytes::len_before;
use crate::check::{Block, TEXT_START, text_of};
use std::alloc::{AllocError, Global};

// A line as it stands in its block: the offset of its first byte, and its bytes without the byte 10.
#[derive(Clone, Copy, Debug, PartialEq, Eq)]
pub struct PlacedLine<'a> {
    pub offset: usize,
    pub bytes: &'a [u8],
}

// Reads a block line by line. `done` bytes of the text are behind it, which is the place of the next line too; a slice of
// what is left would stand beside that number and not in its place.
#[derive(Drop)]
pub struct Reader<'a> {
    block: &'a Block,
    done: usize,
}

// Reads a text line by line: `rest` is still to be read. The library's `split_inclusive` would not serve the reader, which
// has to know where it is, so that lines would be cut in two ways.
#[derive(Drop)]
struct Lines<'a> {
    rest: &'a [u8],
}

// The first line of a text, and what stands behind its byte 10; an empty text has no line.
#[tactic(auto, using(std::proofs::lemmas::Grind::common_steps, crate::proofs::Cuts::cut_first))]
fn first_line(text: &[u8]) -> Option<(&[u8], &[u8])>
    ensures first { MatchOption result (text.now ≡ []) (λ p. cut text.now ≡ p.0.now ∷ cut p.1.now) }
    ensures behind { IfSome result (λ p. p.1.now ≡ drop (length p.0.now + 1) text.now) }
{
    if text.is_empty() {
        return None;
    }
    let n = len_before(text, b'\n');
    Some((&text[..n], text.get(n + 1..).unwrap_or_default()))
}

impl<'a> Iterator for Lines<'a> {
    ghost use Rattle.std.specs.Iterator.{YieldsFirstRef, item_count};

    type Item = &'a [u8];

    ghost next_gives = { YieldsFirstRef (λ lines. cut lines.rest.now) };

    ghost remaining = { item_count (λ lines. cut lines.rest.now) };

    fn next(&mut self) -> Option<&'a [u8]> {
        let (line, rest) = first_line(self.rest)?;
        self.rest = rest;
        Some(line)
    }
}

// The lines of a text, cut after each byte 10.
pub fn split_lines<'a>(heap: Global, text: &'a [u8]) -> Result<Vec<&'a [u8]>, AllocError>
    ensures { IfOk result (λ v. lent v.items ≡ cut text.now) }
{
    Lines { rest: text }.collect(heap)
}

impl<'a> Reader<'a> {
    // A reader before the first line of a block.
    pub fn new(block: &'a Block) -> Reader<'a>
        ensures lines { to_come result ≡ lines_in block.now }
        ensures whole { CutsWhole }
    {
        Reader { block, done: 0 }
    }
}

impl<'a> Iterator for Reader<'a> {
    ghost use Rattle.std.specs.Iterator.{item_count};
    ghost use Rattle.blocks.specs.Reading.{HandsOut};

    type Item = PlacedLine<'a>;

    ghost next_gives = { HandsOut };

    ghost remaining = { item_count to_come };

    fn next(&mut self) -> Option<PlacedLine<'a>> {
        let (bytes, _) = first_line(text_of(self.block).get(self.done..)?)?;
        let offset = TEXT_START + self.done;
        self.done += bytes.len() + 1;
        Some(PlacedLine { offset, bytes })
    }
}
