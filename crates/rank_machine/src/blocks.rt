//! Where the objects of `malloc` stand, by ascending places.

ghost use Rattle.std.specs.Prelude.{◌≡◌, ◌≤◌, IfOk, length};
ghost use Rattle.std.specs.Prelude as lists;
ghost use Rattle.flat_code.specs.Placed.{first_fit, insert_block, without_block};
ghost use Rattle.variable_stack.specs.declared.Descriptor as descriptor;
ghost use Rattle.rank_machine.specs.Blocks.{block_of, blocks_of};

use std::alloc::AllocError;
use variable_stack::Descriptor;

/// The lowest place where so many cells fit among 65,536.
pub fn fit(blocks: &[Descriptor], n: u32) -> Option<u32>
    requires { n ≤ 65536 }
    ensures { result ≡ first_fit (blocks_of blocks.now) 0 n }
{
    let mut from: u64 = 0;
    for b in blocks {
        if from + n as u64 <= b.place as u64 {
            return Some(from as u32);
        }
        from = b.place as u64 + b.length as u64;
    }
    if from + n as u64 > 65_536 {
        None
    } else {
        Some(from as u32)
    }
}

/// A block comes among the others.
pub fn insert(blocks: &mut Vec<Descriptor>, block: Descriptor) -> Result<(), AllocError>
    ensures { IfOk result (λ done. blocks_of blocks.new.items ≡ insert_block (block_of block) (blocks_of blocks.old.items)) }
{
    let at = place_of(blocks, block.place);
    blocks.insert(at, block)?;
    Ok(())
}

// Where a block with a place stands among the others.
#[tactic(auto, using(crate::proofs::Insertions::inserted, crate::proofs::Insertions::added))]
fn place_of(blocks: &[Descriptor], place: u32) -> usize
    ensures within { result ≤ length blocks.now }
    ensures order { (b : descriptor.Descriptor) → b.place ≡ place → blocks_of (lists.insert blocks.now result b) ≡ insert_block (block_of b) (blocks_of blocks.now) }
{
    for at in 0..blocks.len() {
        if place < blocks[at].place {
            return at;
        }
    }
    blocks.len()
}

/// The block of a serial goes.
#[tactic(auto, using(crate::proofs::Removals::removed, crate::proofs::Removals::missing))]
pub fn remove(blocks: &mut Vec<Descriptor>, serial: u64)
    ensures { blocks_of blocks.new.items ≡ without_block (blocks_of blocks.old.items) serial }
{
    for at in 0..blocks.len() {
        if blocks[at].serial == serial {
            blocks.remove(at);
            return;
        }
    }
}
