//! What the events of a batch come to along picks.

ghost use Rattle.batch_events.specs.BatchRuns.{BatchesComeToTheirRuns};
ghost use Rattle.batch_events.specs.BatchWorks.{CommittedAlongPicksIsSerial};

/// However the turns are given, the events of a batch end once there were enough turns, and each
/// transaction comes to what the source's run of its request comes to on the snapshot: its outcome,
/// its state, what it has read and written, and as many steps left. There are as many events whatever
/// the picks are, and however many partitions there are.
pub fn batches_come_to_their_runs()
    ensures { BatchesComeToTheirRuns }
{}

/// What a lawful rule commits of such a batch is a serial run on the snapshot, however the turns were
/// given. The rule goes by works: what each transaction has read and written, and its records of what
/// was written.
pub fn committed_along_picks()
    ensures { CommittedAlongPicksIsSerial }
{}
