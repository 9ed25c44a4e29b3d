//! The blocks of all methods of a program, class by class.

ghost use Rattle.std.specs.Prelude.{◌≡◌, ◌++◌, length, IfOk, OnOk};
ghost use Rattle.block_code.specs.PlainBlocks.{plain_methods};
ghost use Rattle.entity_compiler.specs.Marked.{HasTables, classes_of, methods_at, all_blocks};

use crate::methods::{Marked, add_methods};
use block_code::MethodBlocks;
use sf_list::Sequence;
use std::alloc::{AllocError, Global};

/// How many classes there are.
fn class_count(marked: &Marked) -> u32
    requires { HasTables marked.now }
    ensures { result ≡ length (classes_of marked.now) }
{
    marked.tables.len() as u32
}

/// How many methods the class of this number has.
fn method_count(marked: &Marked, class: u32) -> u32
    requires { HasTables marked.now }
    ensures { result ≡ length (methods_at marked.now class) }
{
    match marked.tables.get(class as usize) {
        Some(table) => table.methods.len() as u32,
        None => 0,
    }
}

/// Adds the blocks of the methods of each class.
fn add_classes(alloc: Global, made: &mut MethodBlocks, marked: &Marked) -> Result<(), AllocError>
    requires { HasTables marked.now }
    ensures { OnOk result (plain_methods made.new ≡ plain_methods made.old ++ all_blocks marked.now) }
{
    for class in 0..class_count(marked) {
        let count = method_count(marked, class);
        add_methods(alloc, made, marked, class, count)?;
    }
    Ok(())
}

/// The blocks of all methods, in the order of the numbers of classes and methods.
pub fn program_blocks(alloc: Global, marked: &Marked) -> Result<MethodBlocks, AllocError>
    requires { HasTables marked.now }
    ensures { IfOk result (λ made. plain_methods made ≡ all_blocks marked.now) }
{
    let mut made = Sequence::new(alloc);
    match add_classes(alloc, &mut made, marked) {
        Ok(()) => Ok(made),
        Err(error) => {
            drop(made);
            Err(error)
        }
    }
}
