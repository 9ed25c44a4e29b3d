//! What the definitions say by themselves.

ghost use Rattle.block_runs.specs.Laws.{StepsAreOne, RunsAreOne};
ghost use Rattle.block_runs.specs.StepFalls.{StepsFall};
ghost use Rattle.block_runs.specs.StepFits.{EventsStepWell};

/// How much fuel there is doesn't matter, where it is enough: the blocks of a method come to one
/// thing, and an event to one step.
pub fn one_step()
    ensures steps { StepsAreOne }
    ensures runs { RunsAreOne }
{}

/// Each step of an event makes it lighter, so that the events of a transaction end: a call and a
/// creation take a step, and any other result leaves fewer frames.
pub fn steps_fall()
    ensures { StepsFall }
{}

/// Nothing goes wrong in an event. In an accepted program whose blocks fit, an event that fits the
/// graph, with a record that fits its class, comes to a step. The record that this leaves fits its
/// class again, and the next event fits the graph.
pub fn events_step_well()
    ensures { EventsStepWell }
{}
