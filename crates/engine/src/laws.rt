//! What the definitions of an engine say by themselves.

ghost use Rattle.engine.specs.Arrivals.{ArrivalsSay};
ghost use Rattle.engine.specs.Growth.{GrowsOn, GrowsSound};
ghost use Rattle.engine.specs.PlanReplays.{PlansReplay};

/// An arrival says what is there: that a request is new where neither an entry nor a request that waits has
/// its id, that the same request stands at a place of the history, that it waits, or that another has
/// its id.
pub fn arrivals_say()
    ensures { ArrivalsSay }
{}

/// The record of a plan, run again on the core without the requests that came since the last batch, fits it
/// and gives the core that the plan's commit leaves.
pub fn plans_replay()
    ensures { PlansReplay }
{}

/// What a core grows to serially is sound where the core is, and may grow on.
pub fn cores_grow()
    ensures sound { GrowsSound }
    ensures on { GrowsOn }
{}
