//! Paths through a block: its items, and its end.

ghost use Rattle.std.specs.Prelude.{◌≡◌};
ghost use Rattle.block_code.specs.PlainBlocks.{plain_item, plain_items, plain_end, plain_block};
ghost use Rattle.live_laws.specs.Live as spec;

use crate::expressions::{any_read, reads, reads_if_there};
use crate::paths::{all_read_first, all_spare};
use block_code::{Block, End, Item};
use py_tree::Name;

fn item_spares(item: &Item, name: Name) -> bool
    ensures { result ≡ spec.item_spares (plain_item item.now) name.0 }
{
    match item {
        Item::Mark | Item::Put(..) => true,
        Item::Set(x, _) => x.0 != name.0,
        Item::Give(_) | Item::Fail(..) => false,
        Item::Code(code) => all_spare(code.as_slice(), name),
    }
}

fn item_reads(item: &Item, name: Name) -> bool
    ensures { result ≡ spec.item_reads (plain_item item.now) name.0 }
{
    match item {
        Item::Mark => false,
        Item::Set(_, value) | Item::Put(_, value) | Item::Give(value) => reads(value, name),
        Item::Fail(_, message) => reads_if_there(message, name),
        Item::Code(code) => all_read_first(code.as_slice(), name),
    }
}

/// Whether some path goes through all items and spares a variable.
#[tactic(auto, using(crate::proofs::ItemRules::spare_rules))]
pub(crate) fn items_spare(items: &[Item], name: Name) -> bool
    ensures { result ≡ spec.items_spare (plain_items items.now) name.0 }
{
    for item in items {
        if !item_spares(item, name) {
            return false;
        }
    }
    true
}

#[tactic(auto, using(crate::proofs::ItemRules::read_rules))]
fn items_read(items: &[Item], name: Name) -> bool
    ensures { result ≡ spec.items_read (plain_items items.now) name.0 }
{
    for item in items {
        if item_reads(item, name) {
            return true;
        }
        if !item_spares(item, name) {
            return false;
        }
    }
    false
}

fn end_reads(end: &End, name: Name) -> bool
    ensures { result ≡ spec.end_reads (plain_end end.now) name.0 }
{
    match end {
        End::Jump(_) | End::Leave => false,
        End::Branch(test, _, _) => reads(test, name),
        End::Call { on, args, .. } => reads(on, name) || any_read(args, name),
        End::Make { args, .. } => any_read(args, name),
    }
}

/// Whether some path through a block reads a variable before it assigns it.
pub(crate) fn block_reads(block: &Block, name: Name) -> bool
    ensures { result ≡ spec.block_reads (plain_block block.now) name.0 }
{
    items_read(block.code.as_slice(), name)
        || (items_spare(block.code.as_slice(), name) && end_reads(&block.end, name))
}
