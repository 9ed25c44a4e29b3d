//! The blocks of a method, and of the methods of a class.

ghost use Rattle.std.specs.Prelude.{◌≡◌, ◌++◌, length, Some, IfOk, OnOk};
ghost use Rattle.std.specs.Option.{IsSome};
ghost use Rattle.py_tree.specs.PlainProgram.{PlainMethod};
ghost use Rattle.block_code.specs.PlainBlocks.{plain_blocks, plain_methods};
ghost use Rattle.flat_tree.specs.PlainFlat.{plain_flat};
ghost use Rattle.method_splitter.specs.Split.{split_blocks};
ghost use Rattle.entity_compiler.specs.Marked.{HasTables, method_at, methods_at, blocks_at, class_blocks};

use block_code::{Blocks, MethodBlocks};
use call_graph::CallGraph;
use entity_tables::Tables;
use flat_tree::Flat;
use method_hoister::hoist;
use method_splitter::{SplitError, split};
use py_tree::Checked;
use std::alloc::{AllocError, Global};

/// An accepted program with its marks.
#[derive(Drop)]
pub struct Marked<'a> {
    pub program: &'a Checked,
    /// The tables of this program.
    pub tables: &'a Tables,
    /// The methods of this program that may suspend.
    pub calls: &'a CallGraph,
}

/// The blocks of a flat method. More blocks than there are numbers have no room in memory either.
fn flat_blocks(alloc: Global, flat: &Flat) -> Result<Blocks, AllocError>
    ensures { IfOk result (λ made. plain_blocks made ≡ split_blocks (plain_flat flat.now)) }
{
    match split(alloc, flat) {
        Ok(blocks) => Ok(blocks),
        Err(SplitError::TooManyBlocks | SplitError::NoMemory) => Err(AllocError),
    }
}

/// The blocks of the method of this number, in the class of that number.
fn method_blocks(
    alloc: Global,
    marked: &Marked,
    class: u32,
    method: u32,
) -> Result<Blocks, AllocError>
    requires tables { HasTables marked.now }
    requires method { IsSome (method_at marked.now class method) }
    ensures { (m : PlainMethod) → method_at marked.now class method ≡ Some m
        → IfOk result (λ made. plain_blocks made ≡ blocks_at marked.now class method m) }
{
    let flat = hoist(
        alloc,
        marked.program,
        marked.tables,
        marked.calls,
        class,
        method,
    )?;
    let blocks = flat_blocks(alloc, &flat);
    drop(flat);
    blocks
}

/// Adds the blocks of the methods of a class, of which there are so many.
pub fn add_methods(
    alloc: Global,
    made: &mut MethodBlocks,
    marked: &Marked,
    class: u32,
    count: u32,
) -> Result<(), AllocError>
    requires tables { HasTables marked.now }
    requires count { count ≡ length (methods_at marked.now class) }
    ensures { OnOk result (plain_methods made.new ≡ plain_methods made.old ++ class_blocks marked.now class) }
{
    for method in 0..count {
        let blocks = method_blocks(alloc, marked, class, method)?;
        made.push(alloc, blocks)?;
    }
    Ok(())
}
