//! A part of a method: block after block, up to its end or to a call or a creation.

ghost use Rattle.std.specs.Prelude.{IfOk};
ghost use Rattle.block_code.specs.PlainBlocks.{plain_blocks};
ghost use Rattle.block_runs.specs.EventStep.{Part as BlockPart};
ghost use Rattle.event_step.specs.Turns.{ComesAs, CanRun, Runs, RanksFall};

use crate::blocks::block_of;
use crate::ends::run_block;
use crate::method::{Part, Place, Running, Turn};
use block_code::Block;
use std::alloc::AllocError;

/// Runs a method from the block of this number on.
///
/// Where a block takes no step it goes on at blocks of smaller rank, so this ends.
pub(crate) fn run_part(
    place: &Place<'_>,
    blocks: &[Block],
    start: u32,
    running: &mut Running,
) -> Result<Part, AllocError>
    requires ranks { RanksFall (plain_blocks blocks.now) }
    requires due { CanRun place.now (plain_blocks blocks.now) start running.old }
    ensures { (p : BlockPart) → Runs place.now (plain_blocks blocks.now) start running.old p → IfOk result (λ part. ComesAs part running.new p) }
{
    let mut number = start;
    'turns: loop {
        let Some(block) = block_of(blocks, number) else {
            // a block goes on at blocks that are there
            unreachable!()
        };
        match run_block(place, number, block, running)? {
            Turn::Goes(next) => number = next,
            Turn::Ends(part) => return Ok(part),
        }
    }
}
