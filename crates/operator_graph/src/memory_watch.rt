//! A watch that keeps what it was told.

ghost use Rattle.std.specs.Prelude.{◌≡◌, [], Some, IfOk};
ghost use Rattle.std.specs.Option.{option_copied};
ghost use Rattle.block_code.specs.GraphViews.{graph_tables, graph_blocks};
ghost use Rattle.operator_graph.specs.Telling.{GraphTold, StepTold};
ghost use Rattle.operator_graph.specs.Notes.{told_by, told_if, IsNoted};
ghost use Rattle.operator_graph.specs.MemoryNotes.{told_in};

use crate::watch::Watch;
use block_code::{Event, Graph};
use sf_list::{Sequence, TryClone};
use std::alloc::{AllocError, Global};
use std::mem;

/// What a watch was told once.
#[derive(Drop)]
pub enum Note {
    Graph(Graph),
    /// The number of the operator, and the event that it handles.
    Step(u32, Event),
}

pub type Notes = Sequence<Note>;

/// Keeps copies of what it is told. Once there is no memory for one it gives them up, and tells nothing
/// any more.
#[derive(Drop)]
pub struct MemWatch {
    alloc: Global,
    kept: Option<Notes>,
}

fn note_of_graph(alloc: Global, graph: &Graph) -> Result<Note, AllocError>
    ensures { IfOk result (λ note. told_by note ≡ GraphTold (graph_tables graph.now) (graph_blocks graph.now)) }
{
    Ok(Note::Graph(graph.try_clone(alloc)?))
}

fn note_of_step(alloc: Global, operator: u32, event: &Event) -> Result<Note, AllocError>
    ensures { IfOk result (λ note. told_by note ≡ StepTold operator event.now) }
{
    Ok(Note::Step(operator, event.try_clone(alloc)?))
}

/// The notes with one more, where there are some, and there is one and memory for it.
fn with_note(alloc: Global, kept: Option<Notes>, note: Result<Note, AllocError>) -> Option<Notes>
    ensures { IsNoted kept note result }
{
    let Some(kept) = kept else {
        return None;
    };
    let Ok(note) = note else {
        return None;
    };
    let mut notes = kept;
    match notes.push(alloc, note) {
        Ok(()) => Some(notes),
        Err(_) => None,
    }
}

impl MemWatch {
    /// A watch that was told nothing yet. It takes no memory.
    pub fn new(alloc: Global) -> MemWatch
        ensures { told_in result ≡ Some [] }
    {
        MemWatch {
            alloc,
            kept: Some(Sequence::new(alloc)),
        }
    }

    /// What it was told, in order; none where it tells nothing any more. It takes no memory.
    pub fn notes(&self) -> Option<&Notes>
        ensures { told_if (option_copied result) ≡ told_in self.now }
    {
        self.kept.as_ref()
    }

    fn keep(&mut self, note: Result<Note, AllocError>)
        ensures { IsNoted self.old.kept note self.new.kept }
    {
        let kept = mem::replace(&mut self.kept, None);
        self.kept = with_note(self.alloc, kept, note);
    }
}

impl Watch for MemWatch {
    ghost use Rattle.operator_graph.specs.MemoryNotes.{told_in};

    ghost told = { told_in };

    fn graph(&mut self, graph: &Graph) {
        let note = note_of_graph(self.alloc, graph);
        self.keep(note);
    }

    fn step(&mut self, operator: u32, event: &Event) {
        let note = note_of_step(self.alloc, operator, event);
        self.keep(note);
    }
}
