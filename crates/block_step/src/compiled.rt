//! An accepted program with a graph that fits it, and whose events mean it.

ghost use Rattle.py_tree.specs.CheckedViews.{checked_program, checked_names};
ghost use Rattle.block_code.specs.GraphViews.{graph_tables, graph_blocks};
ghost use Rattle.block_step.specs.Compilation.{IsCompilation};

use block_code::Graph;
use py_tree::Checked;

/// An accepted program, and a graph of which the events of each request, run alone, end as the source's
/// meaning.
#[derive(Drop)]
pub struct Compiled {
    pub(crate) program: Checked,
    pub(crate) graph: Graph,
    pub ghost whole: { ∥ IsCompilation (checked_names program) (checked_program program) (graph_tables graph) (graph_blocks graph) ∥₁ },
}

impl Compiled {
    ghost use Rattle.std.specs.Prelude.{◌≡◌};
    ghost use Rattle.block_step.specs.CompiledViews.{compiled_program, compiled_names, compiled_tables, compiled_blocks, IsWhole};

    /// The two are kept as they are.
    pub fn new(program: Checked, graph: Graph) -> Compiled
        requires { IsCompilation (checked_names program) (checked_program program) (graph_tables graph) (graph_blocks graph) }
        ensures program { compiled_program result ≡ checked_program program }
        ensures names { compiled_names result ≡ checked_names program }
        ensures blocks { compiled_blocks result ≡ graph_blocks graph }
        ensures whole { IsWhole result }
    {
        Compiled { program, graph }
    }

    pub fn program(&self) -> &Checked
        ensures program { checked_program result.now ≡ compiled_program self.now }
        ensures names { checked_names result.now ≡ compiled_names self.now }
    {
        &self.program
    }

    pub fn graph(&self) -> &Graph
        ensures tables { graph_tables result.now ≡ compiled_tables self.now }
        ensures blocks { graph_blocks result.now ≡ compiled_blocks self.now }
    {
        &self.graph
    }
}
