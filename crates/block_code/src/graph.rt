//! The graph of an accepted program.

ghost use Rattle.std.specs.Prelude.{◌≡◌, ◌≤◌, length, IfOk};
ghost use Rattle.std.specs.List.{All};
ghost use Rattle.py_tree.specs.ClassRules.{tables_of};
ghost use Rattle.py_tree.specs.CheckedViews.{checked_program, checked_names};
ghost use Rattle.entity_tables.specs.Views.{plain_tables};
ghost use Rattle.block_code.specs.Places.{firsts_from};

use crate::block::{Block, Blocks, MethodBlocks};
use entity_tables::{ClassTable, RuleError, Tables, tables};
use py_tree::Checked;
use sf_list::{Sequence, TryClone};
use std::alloc::{AllocError, Global};

/// The blocks of the methods of an accepted program. `__init__` and `__key__` have none.
#[derive(Drop)]
pub struct Graph {
    pub(crate) tables: Tables,
    /// For each class how many methods the classes before it have.
    firsts: Sequence<u32>,
    pub(crate) methods: MethodBlocks,
    pub ghost has_firsts: { firsts ≡ firsts_from 0 (plain_tables tables) },
}

/// For each class how many methods the classes before it have.
fn firsts_of(alloc: Global, tables: &[ClassTable]) -> Result<Sequence<u32>, AllocError>
    requires few { length tables.now ≤ 256 }
    requires few_methods { All (λ t. length t.methods ≤ 256) tables.now }
    ensures { IfOk result (λ firsts. firsts ≡ firsts_from 0 (plain_tables tables.now)) }
{
    let mut firsts = Sequence::new(alloc);
    let mut place: u32 = 0;
    for table in tables {
        firsts.push(alloc, place)?;
        place += table.methods.len() as u32;
    }
    Ok(firsts)
}

/// The tables of an accepted program.
fn tables_in(alloc: Global, program: &Checked) -> Result<Tables, AllocError>
    ensures { IfOk result (λ made. plain_tables made ≡ tables_of (checked_names program.now) (checked_program program.now)) }
{
    match tables(alloc, program.program(), program.names()) {
        Ok(made) => Ok(made),
        Err(RuleError::NoMemory) => Err(AllocError),
        // an accepted program breaks no rule
        Err(RuleError::Fault(_)) => unreachable!(),
    }
}

impl Graph {
    ghost use Rattle.std.specs.Prelude.{[], slice_index_or, option_map};
    ghost use Rattle.block_code.specs.PlainBlocks.{plain_block, plain_blocks, plain_methods};
    ghost use Rattle.block_code.specs.Places.{first_place, blocks_of, block_at};
    ghost use Rattle.block_code.specs.GraphViews.{graph_tables, graph_blocks};
    ghost use Rattle.block_code.specs.GraphFits.{GraphFits};

    /// The graph of these blocks, which are those of each method in the order of the numbers of classes
    /// and methods, and fit the program.
    pub fn new(alloc: Global, program: &Checked, methods: MethodBlocks) -> Result<Graph, AllocError>
        requires { GraphFits (checked_names program.now) (checked_program program.now) (plain_methods methods) }
        ensures tables { IfOk result (λ g. graph_tables g ≡ tables_of (checked_names program.now) (checked_program program.now)) }
        ensures blocks { IfOk result (λ g. graph_blocks g ≡ plain_methods methods) }
    {
        let tables = tables_in(alloc, program)?;
        let firsts = firsts_of(alloc, tables.as_slice())?;
        Ok(Graph {
            tables,
            firsts,
            methods,
        })
    }

    /// The tables of the graph's program.
    pub fn tables(&self) -> &Tables
        ensures { plain_tables result.now ≡ graph_tables self.now }
    {
        &self.tables
    }

    /// The blocks that the graph was made of.
    pub fn blocks(&self) -> &MethodBlocks
        ensures { plain_methods result.now ≡ graph_blocks self.now }
    {
        &self.methods
    }

    /// How many methods the classes before this one have.
    pub(crate) fn first(&self, class: usize) -> u32
        ensures { result ≡ first_place (graph_tables self.now) class }
    {
        match self.firsts.get(class) {
            Some(first) => *first,
            None => 0,
        }
    }

    /// The blocks of the method at this place among all.
    pub(crate) fn at(&self, place: usize) -> &[Block]
        ensures { plain_blocks result.now ≡ slice_index_or (graph_blocks self.now) place [] }
    {
        match self.methods.get(place) {
            Some(blocks) => blocks.as_slice(),
            None => &[],
        }
    }

    /// The blocks of the method of this number, in the class of that number.
    pub fn method(&self, class: u32, method: u32) -> &[Block]
        ensures { plain_blocks result.now ≡ blocks_of (graph_tables self.now) (graph_blocks self.now) class method }
    {
        self.at(self.first(class as usize) as usize + method as usize)
    }

    /// The block of this number of a method.
    pub fn block(&self, class: u32, method: u32, number: u32) -> Option<&Block>
        ensures { option_map (λ b. plain_block b.now) result ≡ block_at (graph_tables self.now) (graph_blocks self.now) class method number }
    {
        self.method(class, method).get(number as usize)
    }
}

fn copy_numbers(alloc: Global, numbers: &Sequence<u32>) -> Result<Sequence<u32>, AllocError>
    ensures { IfOk result (λ made. made ≡ numbers.now) }
{
    let mut made = Sequence::new(alloc);
    made.extend_from_slice(alloc, numbers.as_slice())?;
    Ok(made)
}

impl TryClone for Graph {
    ghost use Rattle.std.specs.Prelude.{◌≡◌};
    ghost use Rattle.block_code.specs.GraphViews.{graph_tables, graph_blocks};

    ghost is_copy = { λ old made. (graph_tables made ≡ graph_tables old) × (graph_blocks made ≡ graph_blocks old) };

    #[tactic(auto, using(crate::proofs::ListCopies::graph_copies))]
    fn try_clone(&self, alloc: Global) -> Result<Graph, AllocError> {
        let tables = self.tables.try_clone(alloc)?;
        let firsts = copy_numbers(alloc, &self.firsts)?;
        let methods = self.methods.try_clone(alloc)?;
        Ok(Graph {
            tables,
            firsts,
            methods,
        })
    }
}
