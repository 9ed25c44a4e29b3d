//! The live names of each block, as lists.

ghost use Rattle.std.specs.Prelude.{◌≡◌, IfOk};
ghost use Rattle.py_tree.specs.ClassViews.{numbers_of};
ghost use Rattle.block_code.specs.PlainBlocks.{plain_blocks};
ghost use Rattle.live_vars.specs.Saved.{TellsLive, LiveAreParams, lists_of, names_in};

use crate::live_sets::live_sets;
use crate::sets::NameSet;
use block_code::Blocks;
use py_tree::Name;
use sf_list::Sequence;
use std::alloc::{AllocError, Global};

/// For each block a list of names.
pub type NameLists = Sequence<Sequence<Name>>;

#[tactic(auto, using(crate::proofs::ListRules::name_more))]
fn names_of(alloc: Global, set: &NameSet) -> Result<Sequence<Name>, AllocError>
    ensures { IfOk result (λ names. numbers_of names ≡ names_in set.now) }
{
    let mut names = Sequence::new(alloc);
    for number in set.numbers.as_slice() {
        names.push(alloc, Name(*number))?;
    }
    Ok(names)
}

/// The live names of each block, where each of them is a parameter of the block, as it is where blocks fit
/// (`fit_graphs_take_live`).
#[tactic(auto, using(crate::proofs::ListRules::list_more))]
pub fn saved(alloc: Global, blocks: &Blocks) -> Result<NameLists, AllocError>
    ensures { IfOk result (λ lists. LiveAreParams (plain_blocks blocks.now) → TellsLive (plain_blocks blocks.now) (lists_of lists)) }
{
    let sets = live_sets(alloc, blocks)?;
    let mut lists = Sequence::new(alloc);
    for set in sets.as_slice() {
        let names = names_of(alloc, set)?;
        lists.push(alloc, names)?;
    }
    drop(sets);
    Ok(lists)
}
