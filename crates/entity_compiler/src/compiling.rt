//! The compiled program of a text.

ghost use Rattle.std.specs.Prelude.{◌≡◌, IfOk};
ghost use Rattle.py_tree.specs.CheckedViews.{checked_program, checked_names};
ghost use Rattle.py_tree.specs.ClassRules.{tables_of};
ghost use Rattle.entity_tables.specs.Views.{plain_tables};
ghost use Rattle.block_code.specs.GraphViews.{graph_tables, graph_blocks};
ghost use Rattle.block_step.specs.CompiledViews.{compiled_program, compiled_names, compiled_blocks, IsWhole};
ghost use Rattle.live_laws.specs.Cut.{GraphHasLiveParams};
ghost use Rattle.entity_compiler.specs.Compiling.{AreCompiled, IsGraphOf, Compiles};

use crate::classes::program_blocks;
use crate::methods::Marked;
use block_code::Graph;
use block_step::Compiled;
use call_graph::graph;
use entity_tables::Tables;
use live_vars::trim;
use program_text::{Accepted, ProgramError, accept};
use py_tree::Checked;
use std::alloc::{AllocError, Global};

/// The graph of an accepted program.
fn graph_of(alloc: Global, program: &Checked, tables: &Tables) -> Result<Graph, AllocError>
    requires { plain_tables tables.now ≡ tables_of (checked_names program.now) (checked_program program.now) }
    ensures { IfOk result (λ g. IsGraphOf (checked_names program.now) (checked_program program.now) (graph_tables g) (graph_blocks g)) }
{
    let calls = graph(alloc, program)?;
    let marked = Marked {
        program,
        tables,
        calls: &calls,
    };
    let blocks = program_blocks(alloc, &marked)?;
    let cut = trim(alloc, program, blocks)?;
    Graph::new(alloc, program, cut)
}

/// An accepted program with its graph.
fn with_graph(alloc: Global, program: Checked, tables: Tables) -> Result<Compiled, AllocError>
    requires { plain_tables tables ≡ tables_of (checked_names program) (checked_program program) }
    ensures program { IfOk result (λ c. compiled_program c ≡ checked_program program) }
    ensures names { IfOk result (λ c. compiled_names c ≡ checked_names program) }
    ensures blocks { IfOk result (λ c. AreCompiled (compiled_names c) (compiled_program c) (compiled_blocks c)) }
    ensures live { IfOk result (λ c. GraphHasLiveParams (compiled_names c) (compiled_program c) (compiled_blocks c)) }
    ensures whole { IfOk result (λ c. IsWhole c) }
{
    let graph = graph_of(alloc, &program, &tables);
    drop(tables);
    match graph {
        Ok(graph) => Ok(Compiled::new(program, graph)),
        Err(error) => {
            drop(program);
            Err(error)
        }
    }
}

/// The compiled program of a text that is accepted; else its first fault. Where a method has more blocks
/// than there are numbers of 32 bits, it answers want of memory.
pub fn compile(alloc: Global, text: &[u8]) -> Result<Compiled, ProgramError>
    ensures compiles { Compiles text.now result }
    ensures blocks { IfOk result (λ c. AreCompiled (compiled_names c) (compiled_program c) (compiled_blocks c)) }
{
    let accepted = accept(alloc, text)?;
    let Accepted { program, tables } = accepted;
    let compiled = with_graph(alloc, program, tables)?;
    Ok(compiled)
}
