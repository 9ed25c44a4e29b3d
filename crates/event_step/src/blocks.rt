//! What a block says of where its method goes on, and of what is read there.

ghost use Rattle.std.specs.Prelude.{◌≡◌, ◌==◌, ◌&&◌, not, nat_eq, option_map, slice_get};
ghost use Rattle.std.specs.List.{list_any, flat_map};
ghost use Rattle.block_code.specs.PlainBlocks.{plain_end, plain_block, plain_blocks, plain_catches};
ghost use Rattle.block_code.specs.EventsFit.{catch_of as the_catch_of, awaited as the_awaited, params_if_there, kept_params};
ghost use Rattle.event_step.specs.Frames.{has_name, is_named, plain_awaits};

use block_code::{Block, Catch, End, VarType};
use py_tree::Name;

/// What is assigned when a result comes, and the block that goes on then.
#[derive(Clone, Copy, Drop)]
pub(crate) struct Awaits {
    pub(crate) into: Name,
    pub(crate) after: u32,
}

fn names_kind(kinds: &[u8], kind: u8) -> bool
    ensures { result ≡ list_any (nat_eq kind) kinds.now }
{
    kinds.iter().any(|named| kind == *named)
}

/// Where a failure of this kind goes on: the first catch that names it tells.
pub(crate) fn catch_of(catches: &[Catch], kind: u8) -> Option<u32>
    ensures { result ≡ the_catch_of (plain_catches catches.now) kind }
{
    for catch in catches {
        if names_kind(catch.kinds.as_slice(), kind) {
            return Some(catch.to);
        }
    }
    None
}

/// What the end of a block waits for, where it waits.
pub(crate) fn awaited(end: &End) -> Option<Awaits>
    ensures { option_map plain_awaits result ≡ the_awaited (plain_end end.now) }
{
    match end {
        End::Call { into, after, .. } | End::Make { into, after, .. } => Some(Awaits {
            into: *into,
            after: *after,
        }),
        End::Jump(_) | End::Branch(..) | End::Leave => None,
    }
}

/// The block of this number.
pub(crate) fn block_of(blocks: &[Block], number: u32) -> Option<&Block>
    ensures { option_map (λ b. plain_block b.now) result ≡ slice_get (plain_blocks blocks.now) number }
{
    blocks.get(number as usize)
}

fn is_at(params: &[VarType], place: usize, name: Name) -> bool
    ensures { result ≡ is_named name.0 (slice_get params.now place) }
{
    match params.get(place) {
        Some(param) => param.name.0 == name.0,
        None => false,
    }
}

/// Whether a name is one of those of parameters. This place is looked at first.
#[tactic(auto, using(crate::proofs::FrameLaws::named_there))]
fn is_among(params: &[VarType], place: usize, name: Name) -> bool
    ensures { result ≡ list_any (λ p. p.name.0 == name.0) params.now }
{
    is_at(params, place, name) || params.iter().any(|p| p.name.0 == name.0)
}

/// Whether a name is one of the parameters of the block of this number.
fn is_param(blocks: &[Block], number: u32, place: usize, name: Name) -> bool
    ensures { result ≡ has_name name.0 (params_if_there (slice_get (plain_blocks blocks.now) number)) }
{
    match block_of(blocks, number) {
        Some(block) => is_among(block.params.as_slice(), place, name),
        None => false,
    }
}

/// Whether a name is one of the parameters of the blocks where these catches lead.
fn is_caught_param(blocks: &[Block], catches: &[Catch], place: usize, name: Name) -> bool
    ensures { result ≡ has_name name.0 (flat_map (λ c. params_if_there (slice_get (plain_blocks blocks.now) c.to)) (plain_catches catches.now)) }
{
    for catch in catches {
        if is_param(blocks, catch.to, place, name) {
            return true;
        }
    }
    false
}

/// Whether a name is a parameter of the block that goes on, and not what the result is assigned to.
fn is_read_after(blocks: &[Block], awaits: Awaits, place: usize, name: Name) -> bool
    ensures { result ≡ (not (name.0 == awaits.into.0) && has_name name.0 (params_if_there (slice_get (plain_blocks blocks.now) awaits.after))) }
{
    if name.0 == awaits.into.0 {
        return false;
    }
    is_param(blocks, awaits.after, place, name)
}

/// Whether a variable of this name is read once a method goes on that waits at the end of this block. Parameters are
/// looked at from this place on: where variables and parameters are in one order it is that of the next one.
pub(crate) fn is_kept(
    blocks: &[Block],
    block: &Block,
    awaits: Awaits,
    place: usize,
    name: Name,
) -> bool
    ensures { result ≡ has_name name.0 (kept_params (plain_blocks blocks.now) (plain_block block.now) (plain_awaits awaits)) }
{
    if is_read_after(blocks, awaits, place, name) {
        return true;
    }
    is_caught_param(blocks, block.catches.as_slice(), place, name)
}
