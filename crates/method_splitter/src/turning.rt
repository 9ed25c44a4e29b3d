//! Lists and code that were made from their end, in the order in which they run.

ghost use Rattle.std.specs.Prelude.{◌≡◌, OnOk, reverse, map};
ghost use Rattle.block_code.specs.PlainBlocks.{plain_item, plain_items};
ghost use Rattle.method_splitter.specs.Rests.{turned};

use block_code::{Item, Items};
use sf_list::Sequence;
use std::alloc::{AllocError, Global};

/// Turns a list, so that its last element is the first.
pub fn turn<T: Drop>(alloc: Global, list: &mut Sequence<T>) -> Result<(), AllocError>
    ensures { OnOk result (list.new ≡ reverse list.old) }
{
    let mut made = Sequence::new(alloc);
    let mut left = list.len();
    while left > 0 {
        left -= 1;
        made.push(alloc, list.remove(left))?;
    }
    *list = made;
    Ok(())
}

/// Turns the statements of an item.
#[tactic(auto, using(crate::proofs::OtherOrder::turning_laws))]
pub fn turn_statements(alloc: Global, item: &mut Item) -> Result<(), AllocError>
    ensures { OnOk result (plain_item item.new ≡ turned (plain_item item.old)) }
{
    match item {
        Item::Code(code) => turn(alloc, code),
        Item::Mark | Item::Set(..) | Item::Put(..) | Item::Give(_) | Item::Fail(..) => Ok(()),
    }
}

/// Turns code that was made from its end.
pub fn turn_code(alloc: Global, code: &mut Items) -> Result<(), AllocError>
    ensures { OnOk result (plain_items code.new ≡ reverse (map turned (plain_items code.old))) }
{
    for i in 0..code.len() {
        turn_statements(alloc, code.at_mut(i))?;
    }
    turn(alloc, code)?;
    Ok(())
}
