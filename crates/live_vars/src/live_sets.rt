//! The live names of each block, by a fixed point: passes over the blocks, until one adds nothing.

ghost use Rattle.std.specs.Prelude.{◌≡◌, ◌<◌, false, length, IfOk};
ghost use Rattle.block_code.specs.PlainBlocks.{plain_end, plain_catches, plain_block, plain_blocks};
ghost use Rattle.live_vars.specs.Saved as spec;
ghost use Rattle.live_vars.specs.Saved.{TellsLive, LiveAreParams, sets_of, state};

use crate::items::{block_reads, items_spare};
use crate::sets::{NameSet, NameSets, has_at};
use block_code::{Block, Blocks, Catch, End};
use py_tree::Name;
use sf_list::Sequence;
use std::alloc::{AllocError, Global};

fn led_by(sets: &NameSets, end: &End, name: Name) -> bool
    ensures { result ≡ spec.led_by (sets_of sets.now) (plain_end end.now) name.0 }
{
    match end {
        End::Jump(to) => has_at(sets, *to, name),
        End::Branch(_, holds, fails) => has_at(sets, *holds, name) || has_at(sets, *fails, name),
        End::Leave => false,
        End::Call { into, after, .. } | End::Make { into, after, .. } => {
            into.0 != name.0 && has_at(sets, *after, name)
        }
    }
}

#[tactic(auto, using(crate::proofs::SetRules::catch_rules))]
fn caught_by(sets: &NameSets, catches: &[Catch], name: Name) -> bool
    ensures { result ≡ spec.caught_by (sets_of sets.now) (plain_catches catches.now) name.0 }
{
    for catch in catches {
        if has_at(sets, catch.to, name) {
            return true;
        }
    }
    false
}

/// Whether a name is live at a block by what it reads, and by what is live where it goes on.
fn comes_live(sets: &NameSets, block: &Block, name: Name) -> bool
    ensures { result ≡ spec.comes_live (sets_of sets.now) (plain_block block.now) name.0 }
{
    caught_by(sets, block.catches.as_slice(), name)
        || (led_by(sets, &block.end, name) && items_spare(block.code.as_slice(), name))
        || block_reads(block, name)
}

/// Adds a name that is live at a block and isn't in its set; whether any have been added, so far.
#[tactic(auto, using(crate::proofs::SetRules::visit_rules))]
fn visit(
    sets: &mut NameSets,
    added: bool,
    at: usize,
    block: &Block,
    name: Name,
) -> Result<bool, AllocError>
    requires { at < length sets.old }
    ensures { IfOk result (λ more. state (sets_of sets.new) more ≡ spec.visit (plain_block block.now) at (state (sets_of sets.old) added) name.0) }
{
    if sets.as_slice()[at].has(name) {
        return Ok(added);
    }
    if !comes_live(sets, block, name) {
        return Ok(added);
    }
    sets.at_mut(at).add(name)?;
    Ok(true)
}

/// So each parameter of a block.
#[tactic(auto, using(crate::proofs::SetRules::param_rules))]
fn visit_params(
    sets: &mut NameSets,
    added: bool,
    at: usize,
    block: &Block,
) -> Result<bool, AllocError>
    requires { at < length sets.old }
    ensures { IfOk result (λ more. state (sets_of sets.new) more ≡ spec.visit_block (plain_block block.now) at (state (sets_of sets.old) added)) }
{
    let mut more = added;
    for param in block.params.as_slice() {
        more = visit(sets, more, at, block, param.name)?;
    }
    Ok(more)
}

/// One pass, in rising order, which is backwards in the code; whether anything has been added.
#[tactic(auto, using(crate::proofs::SetRules::pass_rules))]
fn pass(sets: &mut NameSets, blocks: &[Block]) -> Result<bool, AllocError>
    requires { length sets.old ≡ length blocks.now }
    ensures { IfOk result (λ more. state (sets_of sets.new) more ≡ spec.visit_all 0 (plain_blocks blocks.now) (state (sets_of sets.old) false)) }
{
    let mut more = false;
    for (i, block) in blocks.iter().enumerate() {
        more = visit_params(sets, more, i, block)?;
    }
    Ok(more)
}

#[tactic(auto, using(crate::proofs::SetRules::none_more))]
fn empty_sets(alloc: Global, count: usize) -> Result<NameSets, AllocError>
    ensures { IfOk result (λ sets. sets_of sets ≡ spec.none_for count) }
{
    let mut sets = Sequence::new(alloc);
    for _ in 0..count {
        sets.push(alloc, NameSet::new(alloc))?;
    }
    Ok(sets)
}

/// The set of live names of each block, where each is a parameter of the block.
pub(crate) fn live_sets(alloc: Global, blocks: &Blocks) -> Result<NameSets, AllocError>
    ensures as_many { IfOk result (λ sets. length sets ≡ length blocks.now) }
    ensures live { IfOk result (λ sets. LiveAreParams (plain_blocks blocks.now) → TellsLive (plain_blocks blocks.now) (sets_of sets)) }
{
    let mut sets = empty_sets(alloc, blocks.len())?;
    let mut more = true;
    while more {
        more = pass(&mut sets, blocks.as_slice())?;
    }
    Ok(sets)
}
