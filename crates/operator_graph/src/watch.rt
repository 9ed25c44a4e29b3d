//! Who is told of graphs and of the events that operators handle.

ghost use Rattle.std.specs.Prelude.{ℕ, List, [], ◌∷◌, None};
ghost use Rattle.std.specs.declared.option.Option.{Option};
ghost use Rattle.block_code.specs.GraphViews.{graph_tables, graph_blocks};
ghost use Rattle.operator_graph.specs.Telling.{Told, GraphTold, StepTold, AlsoTold};

use block_code::{Event, Graph};

/// What is told of a run. A call of it can't fail.
pub trait Watch {
    /// What it was told, in order, where it tells it.
    ghost told: { Self → Option (List Told) };

    /// The graph that what follows runs on.
    fn graph(&mut self, graph: &Graph)
        ensures { AlsoTold (told self.old) (told self.new) (GraphTold (graph_tables graph.now) (graph_blocks graph.now) ∷ []) };

    /// An event, before the operator of this number handles it.
    fn step(&mut self, operator: u32, event: &Event)
        ensures { AlsoTold (told self.old) (told self.new) (StepTold operator event.now ∷ []) };
}

/// Does nothing, and tells nothing.
#[derive(Drop)]
pub struct NoWatch;

impl Watch for NoWatch {
    ghost told = { λ watch. None };

    fn graph(&mut self, _graph: &Graph) {}

    fn step(&mut self, _operator: u32, _event: &Event) {}
}
