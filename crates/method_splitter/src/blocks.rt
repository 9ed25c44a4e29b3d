//! Blocks that are made one behind another, each with the next number.

ghost use Rattle.std.specs.Prelude.{◌≡◌, ◌<◌, ◌≤◌, ◌∷◌, [], ◌++◌, length, IfOk, MatchResult};
ghost use Rattle.block_code.specs.PlainBlocks.{plain_block, plain_blocks};
ghost use Rattle.block_code.specs.PlainVars.{plain_vars};
ghost use Rattle.py_tree.specs.PlainStatements.{plain_option};
ghost use Rattle.method_splitter.specs.declared.fault.SplitError.TheVariants.{TooManyBlocks as WantsNumbers};
ghost use Rattle.method_splitter.specs.Split as spec;
ghost use Rattle.method_splitter.specs.Rests.{plain_held, plain_rest, plain_caughts, plain_around};
ghost use Rattle.method_splitter.specs.Numbering.{Ready, AroundReady, MakesRest, MakesTarget, AddsBlock};

use crate::around::{Around, catches_of, rank_in};
use crate::fault::SplitError;
use crate::rest::{Held, Rest, Target, as_held, leave};
use crate::turning::turn_code;
use block_code::{Block, Blocks, VarTypes};
use sf_list::TryClone;
use std::alloc::{AllocError, Global};

/// The next number, where there is one.
fn next_number(blocks: &Blocks) -> Result<u32, SplitError>
    ensures { MatchResult result (λ n. (n ≡ length blocks.now) × (n < 4294967295)) (λ e. (e ≡ WantsNumbers) × (4294967295 ≤ length blocks.now)) }
{
    if blocks.len() >= u32::MAX as usize {
        return Err(SplitError::TooManyBlocks);
    }
    Ok(blocks.len() as u32)
}

/// The block of code and an end.
#[tactic(auto, using(crate::proofs::NumberLaws::copied_vars))]
pub fn block_of(
    alloc: Global,
    around: &Around,
    params: &VarTypes,
    held: Held,
) -> Result<Block, AllocError>
    requires { spec.floor (plain_caughts around.now.catches) ≤ 4294967295 }
    ensures { IfOk result (λ made. plain_block made ≡ spec.block (plain_around around.now) (plain_vars params.now) (plain_held held)) }
{
    let mut held = held;
    turn_code(alloc, &mut held.code)?;
    let params = params.try_clone(alloc)?;
    let catches = catches_of(alloc, &around.catches)?;
    Ok(Block {
        params,
        code: held.code,
        end: held.end,
        rank: rank_in(around, held.rank),
        catches,
    })
}

/// Adds a block, and gives its number.
pub fn add_block(alloc: Global, blocks: &mut Blocks, block: Block) -> Result<u32, SplitError>
    ensures { AddsBlock (plain_block block) (plain_blocks blocks.old) (plain_blocks blocks.new) result }
{
    let number = next_number(blocks)?;
    blocks.push(alloc, block)?;
    Ok(number)
}

/// The block where a rest begins, which has these parameters; what only jumps needs none of its own.
pub fn lodge(
    alloc: Global,
    blocks: &mut Blocks,
    around: &Around,
    params: &VarTypes,
    rest: Rest,
) -> Result<Target, SplitError>
    requires ready { Ready (plain_blocks blocks.old) (spec.rank_of (plain_rest rest)) }
    requires around { AroundReady (plain_blocks blocks.old) (plain_around around.now) }
    ensures { MakesTarget (spec.lodge (plain_around around.now) (plain_vars params.now) (plain_rest rest)) blocks.old blocks.new result }
{
    match rest {
        Rest::Jumps(to) => Ok(to),
        Rest::Holds(held) => home(alloc, blocks, around, params, held),
    }
}

/// The block of code and an end, at a number of its own.
fn home(
    alloc: Global,
    blocks: &mut Blocks,
    around: &Around,
    params: &VarTypes,
    held: Held,
) -> Result<Target, SplitError>
    requires ready { Ready (plain_blocks blocks.old) (spec.rank_of (plain_held held)) }
    requires around { AroundReady (plain_blocks blocks.old) (plain_around around.now) }
    ensures { MakesTarget (spec.homed (plain_around around.now) (plain_vars params.now) (plain_held held)) blocks.old blocks.new result }
{
    let rank = rank_in(around, held.rank);
    let block = block_of(alloc, around, params, held)?;
    let number = add_block(alloc, blocks, block)?;
    Ok(Target { number, rank })
}

/// The block where a rest begins, whatever is left.
pub fn homed(
    alloc: Global,
    blocks: &mut Blocks,
    around: &Around,
    params: &VarTypes,
    rest: Rest,
) -> Result<Target, SplitError>
    requires ready { Ready (plain_blocks blocks.old) (spec.rank_of (plain_rest rest)) }
    requires around { AroundReady (plain_blocks blocks.old) (plain_around around.now) }
    ensures { MakesTarget (spec.homed (plain_around around.now) (plain_vars params.now) (plain_rest rest)) blocks.old blocks.new result }
{
    home(alloc, blocks, around, params, as_held(alloc, rest))
}

/// Where several ways meet, if one leads there.
pub fn joined(
    alloc: Global,
    blocks: &mut Blocks,
    around: &Around,
    after: &Option<VarTypes>,
    rest: Rest,
) -> Result<Rest, SplitError>
    requires ready { Ready (plain_blocks blocks.old) (spec.rank_of (plain_rest rest)) }
    requires around { AroundReady (plain_blocks blocks.old) (plain_around around.now) }
    ensures { MakesRest (spec.joined (plain_around around.now) (plain_option plain_vars after.now) (plain_rest rest)) blocks.old blocks.new result }
{
    match after {
        None => Ok(rest),
        Some(after) => Ok(Rest::Jumps(lodge(alloc, blocks, around, after, rest)?)),
    }
}

/// Where what stands behind a loop or a `try` begins: a block, or the method's end.
pub fn outlet(
    alloc: Global,
    blocks: &mut Blocks,
    around: &Around,
    after: &Option<VarTypes>,
    rest: Rest,
) -> Result<Rest, SplitError>
    requires ready { Ready (plain_blocks blocks.old) (spec.rank_of (plain_rest rest)) }
    requires around { AroundReady (plain_blocks blocks.old) (plain_around around.now) }
    ensures { MakesRest (spec.outlet (plain_around around.now) (plain_option plain_vars after.now) (plain_rest rest)) blocks.old blocks.new result }
{
    match after {
        Some(after) => Ok(Rest::Jumps(lodge(alloc, blocks, around, after, rest)?)),
        None => {
            drop(rest);
            Ok(leave(alloc))
        }
    }
}
