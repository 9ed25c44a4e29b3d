//! Blocks whose parameters are cut to what is live.

ghost use Rattle.std.specs.Prelude.{◌≡◌, length, IfOk, OnOk};
ghost use Rattle.py_tree.specs.CheckedViews.{checked_program, checked_names};
ghost use Rattle.block_code.specs.PlainVars.{plain_vars};
ghost use Rattle.block_code.specs.PlainBlocks.{plain_block, plain_blocks, plain_methods};
ghost use Rattle.block_code.specs.GraphFits.{GraphFits};
ghost use Rattle.request_events.specs.GraphMeans.{GraphMeans, MethodsMean};
ghost use Rattle.live_laws.specs.Cut.{with_params, IsCut, AreCut, NoneGoBack, GraphHasLiveParams};
ghost use Rattle.live_vars.specs.Saved.{TellsLive, LiveAreParams, names_in, sets_of};
ghost use Rattle.live_vars.specs.Trim as spec;

use crate::live_sets::live_sets;
use crate::sets::NameSet;
use block_code::{Block, Blocks, MethodBlocks, VarTypes};
use py_tree::Checked;
use sf_list::{Sequence, TryClone};
use std::alloc::{AllocError, Global};

/// The parameters that are in a set.
#[tactic(auto, using(crate::proofs::TrimRules::kept_rules))]
fn kept_params(alloc: Global, set: &NameSet, params: &VarTypes) -> Result<VarTypes, AllocError>
    ensures { IfOk result (λ made. plain_vars made ≡ spec.kept_of (names_in set.now) (plain_vars params.now)) }
{
    let mut made = Sequence::new(alloc);
    for param in params.as_slice() {
        if set.has(param.name) {
            let copy = param.try_clone(alloc)?;
            made.push(alloc, copy)?;
        }
    }
    Ok(made)
}

/// Cuts the parameters of a block to a set.
fn cut_block(alloc: Global, set: &NameSet, block: &mut Block) -> Result<(), AllocError>
    ensures { OnOk result (plain_block block.new ≡ with_params (plain_block block.old) (spec.kept_of (names_in set.now) (plain_block block.old).params)) }
{
    let params = kept_params(alloc, set, &block.params)?;
    block.params = params;
    Ok(())
}

/// Cuts the parameters of each block but the first to its set.
fn cut_blocks(alloc: Global, sets: &[NameSet], blocks: &mut Blocks) -> Result<(), AllocError>
    requires { length sets.now ≡ length blocks.old }
    ensures { OnOk result (TellsLive (plain_blocks blocks.old) (sets_of sets.now) → IsCut (plain_blocks blocks.old) (plain_blocks blocks.new)) }
{
    for i in 1..blocks.len() {
        cut_block(alloc, &sets[i], blocks.at_mut(i))?;
    }
    Ok(())
}

/// Cuts the blocks of a method.
fn trim_method(alloc: Global, blocks: &mut Blocks) -> Result<(), AllocError>
    ensures { OnOk result (LiveAreParams (plain_blocks blocks.old) → IsCut (plain_blocks blocks.old) (plain_blocks blocks.new)) }
{
    let sets = live_sets(alloc, blocks)?;
    let cut = cut_blocks(alloc, sets.as_slice(), blocks);
    drop(sets);
    cut
}

/// The same blocks, of which each but the first of its method keeps exactly those of its parameters that are live there.
pub fn trim(
    alloc: Global,
    program: &Checked,
    blocks: MethodBlocks,
) -> Result<MethodBlocks, AllocError>
    requires fits { GraphFits (checked_names program.now) (checked_program program.now) (plain_methods blocks) }
    requires begins { NoneGoBack (plain_methods blocks) }
    ensures cut { IfOk result (λ made. AreCut (plain_methods blocks) (plain_methods made)) }
    ensures live { IfOk result (λ made. GraphHasLiveParams (checked_names program.now) (checked_program program.now) (plain_methods made)) }
    ensures fits { IfOk result (λ made. GraphFits (checked_names program.now) (checked_program program.now) (plain_methods made)) }
    ensures bodies { IfOk result (λ made. MethodsMean (checked_names program.now) (checked_program program.now) (plain_methods blocks)
        → MethodsMean (checked_names program.now) (checked_program program.now) (plain_methods made)) }
    ensures means { IfOk result (λ made. GraphMeans (checked_names program.now) (checked_program program.now) (plain_methods blocks)
        → GraphMeans (checked_names program.now) (checked_program program.now) (plain_methods made)) }
{
    let mut made = blocks;
    for i in 0..made.len() {
        trim_method(alloc, made.at_mut(i))?;
    }
    Ok(made)
}
