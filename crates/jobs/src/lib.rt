// Whole jobs: every line of every block, listed with its place.
#![tactic(auto)]

ghost use Rattle.std.specs.Prelude.{IfOk};
ghost use Rattle.jobs.specs.Listings.{Listed};
ghost use Rattle.jobs.specs.Drafts.{Drafted};

use blocks::{BLOCK_SIZE, next_block};
use std::alloc::{AllocError, Global};

mod draft;

use draft::Draft;

// A listing: its text, and how many refusals are in it.
#[derive(Drop)]
pub struct Listing {
    pub text: Vec<u8>,
    pub refused: usize,
}

// The blocks of a job, up to the first that is refused.
fn list_blocks(heap: Global, job: &[u8]) -> Result<Draft, AllocError>
    ensures { IfOk result (Drafted job.now) }
{
    let mut draft = Draft::new(heap);
    for bytes in job.chunks(BLOCK_SIZE) {
        match next_block(bytes, draft.blocks) {
            Ok(block) => draft.list_block(block)?,
            Err(refusal) => {
                draft.refuse(refusal, 0)?;
                return Ok(draft);
            }
        }
    }
    Ok(draft)
}

// Lists a job from its first byte to its last: each order and each refusal with its place, and a summary.
pub fn list_job(heap: Global, job: &[u8]) -> Result<Listing, AllocError>
    ensures { IfOk result (λ l. Listed job.now l.text.items l.refused) }
{
    let mut draft = list_blocks(heap, job)?;
    draft.summarize()?;
    Ok(Listing {
        text: draft.text,
        refused: draft.refused,
    })
}
