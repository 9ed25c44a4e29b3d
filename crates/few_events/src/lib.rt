//! The transactions of a batch, whichever of them is picked when, handle at most 6,500,000 events for each request.
//!
//! Each event makes its transaction lighter, and at first one weighs no more than that. The crate runs nothing.
#![tactic(auto)]

ghost use Rattle.few_events.specs.FewEvents.{EventsAreFew};

/// However the turns are given, and whatever is noted of them, as many events at most are handled as the
/// requests of the batch weigh together.
pub fn events_are_few<N>()
    ensures { EventsAreFew N }
{}
