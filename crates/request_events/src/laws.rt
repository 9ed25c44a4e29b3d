//! What the events of one request come to.

ghost use Rattle.request_events.specs.GraphMeans.{EventsMeanTheirSource};

/// Where a graph fits an accepted program, and the blocks of each method come to what its body does,
/// the events of each request that fits come to an end, from each state that fits. They end as the
/// source's run of that request: with its outcome, its state, what it has read and written, and as
/// many steps left.
pub fn events_mean_their_source()
    ensures { EventsMeanTheirSource }
{}
