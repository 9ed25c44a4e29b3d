//! The frames of the methods that wait: what one keeps, the last one, and those that stay where a
//! failure goes on.

ghost use Rattle.std.specs.Prelude.{◌≡◌, ◌<◌, [], ◌∷◌, ◌++◌, Some, length, slice_get, option_map, IfOk, OnOk};
ghost use Rattle.block_code.specs.PlainBlocks.{plain_block, plain_blocks};
ghost use Rattle.block_code.specs.EventsFit.{kept_params};
ghost use Rattle.block_code.specs.GraphViews.{graph_tables, graph_blocks};
ghost use Rattle.std.specs.Option.{option_copied};
ghost use Rattle.block_runs.specs.EventStep.{kept, kept_at, lasts, resumed as the_resumed};
ghost use Rattle.event_step.specs.Frames.{Popped, is_catching, plain_awaits, staying};

use crate::blocks::{Awaits, awaited, block_of, catch_of, is_kept};
use block_code::{Block, EventKind, Frame, Frames, Graph};
use program_meaning::{Var, Vars};
use sf_list::Sequence;
use sf_value::{Failure, Outcome, Ref};
use std::alloc::{AllocError, Global};

/// Moves a variable behind those that are kept, or drops it.
fn keep_one(
    alloc: Global,
    blocks: &[Block],
    block: &Block,
    awaits: Awaits,
    var: Var,
    made: &mut Vars,
) -> Result<(), AllocError>
    ensures { OnOk result (made.new ≡ made.old ++ kept (kept_params (plain_blocks blocks.now) (plain_block block.now) (plain_awaits awaits)) (var ∷ [])) }
{
    if is_kept(blocks, block, awaits, made.len(), var.name) {
        return made.push(alloc, var);
    }
    drop(var);
    Ok(())
}

/// Moves the variables that are kept behind others.
fn keep_all(
    alloc: Global,
    blocks: &[Block],
    block: &Block,
    awaits: Awaits,
    vars: Vars,
    made: &mut Vars,
) -> Result<(), AllocError>
    ensures { OnOk result (made.new ≡ made.old ++ kept (kept_params (plain_blocks blocks.now) (plain_block block.now) (plain_awaits awaits)) vars) }
{
    for var in vars {
        keep_one(alloc, blocks, block, awaits, var, made)?;
    }
    Ok(())
}

/// Of these variables those that are read once the method goes on that waits at the end of this block.
fn kept_vars(
    alloc: Global,
    blocks: &[Block],
    block: &Block,
    awaits: Awaits,
    vars: Vars,
) -> Result<Vars, AllocError>
    ensures { IfOk result (λ made. made ≡ kept (kept_params (plain_blocks blocks.now) (plain_block block.now) (plain_awaits awaits)) vars) }
{
    let mut made = Sequence::new(alloc);
    match keep_all(alloc, blocks, block, awaits, vars, &mut made) {
        Ok(()) => Ok(made),
        Err(error) => {
            drop(made);
            Err(error)
        }
    }
}

/// What a frame keeps of these variables that waits at the end of the block of this number.
pub(crate) fn kept_there(
    alloc: Global,
    blocks: &[Block],
    number: u32,
    vars: Vars,
) -> Result<Vars, AllocError>
    ensures { IfOk result (λ made. made ≡ kept_at (plain_blocks blocks.now) (slice_get (plain_blocks blocks.now) number) vars) }
{
    let Some(block) = block_of(blocks, number) else {
        drop(vars);
        return Ok(Sequence::new(alloc));
    };
    match awaited(&block.end) {
        Some(awaits) => kept_vars(alloc, blocks, block, awaits, vars),
        None => {
            drop(vars);
            Ok(Sequence::new(alloc))
        }
    }
}

/// Takes out the last frame.
pub(crate) fn pop_frame(frames: &mut Frames) -> Option<Frame>
    ensures { Popped result frames.old frames.new }
{
    let count = frames.len();
    if count == 0 {
        return None;
    }
    Some(frames.remove(count - 1))
}

/// The entity of the last frame.
pub(crate) fn last_entity(frames: &Frames) -> Option<&Ref>
    ensures { option_copied result ≡ option_map (λ l. l.last.at) (lasts frames.now) }
{
    let count = frames.len();
    if count == 0 {
        return None;
    }
    let frame = frames.get(count - 1)?;
    Some(&frame.at)
}

/// Whether the block at whose end the frame at this place waits has a catch for a failure.
fn catches_at(graph: &Graph, frames: &Frames, at: usize, failure: &Failure) -> bool
    requires { at < length frames.now }
    ensures { (f : Frame) → slice_get frames.now at ≡ Some f → result ≡ is_catching (graph_tables graph.now) (graph_blocks graph.now) failure.now f }
{
    let Some(frame) = frames.get(at) else {
        return false;
    };
    match graph.block(frame.at.class, frame.method, frame.block) {
        Some(block) => catch_of(block.catches.as_slice(), failure.kind).is_some(),
        None => false,
    }
}

/// Drops the frames behind the last one that has a catch for a failure, and all where none has.
pub(crate) fn drop_to_catch(graph: &Graph, frames: &mut Frames, failure: &Failure)
    ensures { frames.new ≡ staying (graph_tables graph.now) (graph_blocks graph.now) frames.old failure.now }
{
    'frames: while !frames.is_empty() {
        let last = frames.len() - 1;
        if catches_at(graph, frames, last, failure) {
            return;
        }
        drop(frames.remove(last));
    }
}

/// What is asked for with a result: that the last frame goes on, or nothing more.
pub(crate) fn resumed(frames: &Frames, outcome: Outcome) -> EventKind
    ensures { result ≡ the_resumed frames.now outcome }
{
    if frames.is_empty() {
        EventKind::Done(outcome)
    } else {
        EventKind::Resume(outcome)
    }
}
