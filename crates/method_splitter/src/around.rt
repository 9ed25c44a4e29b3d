//! What stands around code: where `break`, `continue` and failures go on.

ghost use Rattle.std.specs.Prelude.{◌≡◌, ◌<◌, ◌≤◌, ◌∷◌, IfOk};
ghost use Rattle.block_code.specs.PlainBlocks.{plain_catch, plain_catches};
ghost use Rattle.method_splitter.specs.Split as spec;
ghost use Rattle.method_splitter.specs.Rests.{plain_target, plain_rest, plain_caught, plain_caughts, plain_around};

use crate::rest::{Rest, Target, copy_rest};
use block_code::{Catch, Catches};
use py_tree::Kinds;
use sf_list::{Sequence, TryClone};
use std::alloc::{AllocError, Global};

/// Failures of these kinds go on there.
#[derive(Drop)]
pub struct Caught {
    /// The numbers of the kinds.
    pub kinds: Kinds,
    pub to: Target,
}

/// The first that names a failure counts.
pub type Caughts = Sequence<Caught>;

#[derive(Drop)]
pub struct Around {
    pub breaks: Rest,
    pub continues: Rest,
    pub catches: Caughts,
}

fn copy_kinds(alloc: Global, kinds: &Kinds) -> Result<Kinds, AllocError>
    ensures { IfOk result (λ made. made ≡ kinds.now) }
{
    let mut made = Sequence::new(alloc);
    made.extend_from_slice(alloc, kinds.as_slice())?;
    Ok(made)
}

impl TryClone for Caught {
    ghost use Rattle.std.specs.Prelude.{◌≡◌};

    ghost is_copy = { λ old made. made ≡ old };

    fn try_clone(&self, alloc: Global) -> Result<Caught, AllocError> {
        let kinds = copy_kinds(alloc, &self.kinds)?;
        Ok(Caught { kinds, to: self.to })
    }
}

/// A copy of catches.
#[tactic(auto, using(crate::proofs::CatchLaws::caughts_alike))]
pub fn copy_caughts(alloc: Global, catches: &Caughts) -> Result<Caughts, AllocError>
    ensures { IfOk result (λ made. plain_caughts made ≡ plain_caughts catches.now) }
{
    catches.try_clone(alloc)
}

/// The least rank above those of the blocks where failures go on.
fn floor_of(catches: &[Caught]) -> u32
    requires { spec.floor (plain_caughts catches.now) ≤ 4294967295 }
    ensures { result ≡ spec.floor (plain_caughts catches.now) }
{
    let mut low = 0;
    let mut at = catches.len();
    while at > 0 {
        at -= 1;
        low = u32::max(catches[at].to.rank + 1, low);
    }
    low
}

/// The rank of a block of code among these catches.
#[tactic(auto, using(crate::proofs::CatchLaws::as_max))]
pub fn rank_in(around: &Around, rank: u32) -> u32
    requires { spec.floor (plain_caughts around.now.catches) ≤ 4294967295 }
    ensures { result ≡ spec.rank_in (plain_around around.now) rank }
{
    u32::max(rank, floor_of(around.catches.as_slice()))
}

fn catch_of(alloc: Global, caught: &Caught) -> Result<Catch, AllocError>
    ensures { IfOk result (λ made. plain_catch made ≡ spec.catch_in (plain_caught caught.now)) }
{
    let kinds = copy_kinds(alloc, &caught.kinds)?;
    Ok(Catch {
        kinds,
        to: caught.to.number,
    })
}

/// The catches that a block has.
pub fn catches_of(alloc: Global, catches: &Caughts) -> Result<Catches, AllocError>
    ensures { IfOk result (λ made. plain_catches made ≡ spec.catches_in (plain_caughts catches.now)) }
{
    let mut made = Sequence::new(alloc);
    for caught in catches.as_slice() {
        made.push(alloc, catch_of(alloc, caught)?)?;
    }
    Ok(made)
}

/// What stands around the body of a loop.
pub fn inside(
    alloc: Global,
    around: &Around,
    behind: Rest,
    again: Target,
) -> Result<Around, AllocError>
    ensures { IfOk result (λ made. plain_around made ≡ spec.inside (plain_around around.now) (plain_rest behind) (plain_target again)) }
{
    let catches = copy_caughts(alloc, &around.catches)?;
    Ok(Around {
        breaks: behind,
        continues: Rest::Jumps(again),
        catches,
    })
}

/// What stands around the body of a `try`.
pub fn guarded(alloc: Global, around: &Around, catches: Caughts) -> Result<Around, AllocError>
    ensures { IfOk result (λ made. plain_around made ≡ spec.guarded (plain_around around.now) (plain_caughts catches)) }
{
    let breaks = copy_rest(alloc, &around.breaks)?;
    let continues = copy_rest(alloc, &around.continues)?;
    Ok(Around {
        breaks,
        continues,
        catches,
    })
}

/// A clause before those behind it.
pub fn caught_first(
    alloc: Global,
    kinds: &Kinds,
    to: Target,
    later: Caughts,
) -> Result<Caughts, AllocError>
    ensures { IfOk result (λ made. plain_caughts made ≡ record { kinds = kinds.now; to = plain_target to } ∷ plain_caughts later) }
{
    let kinds = copy_kinds(alloc, kinds)?;
    let mut made = Sequence::new(alloc);
    made.push(alloc, Caught { kinds, to })?;
    made.append(alloc, later)?;
    Ok(made)
}
