//! What a batch comes to, whatever rule commits.

ghost use Rattle.commit_order.specs.CommittedSerial.{CommittedIsSerial};

/// What a lawful rule commits of a batch is a serial run: the requests that are committed, one after
/// another in their order, have the outcomes that each had on the snapshot, and the writes of their
/// works make the state after them.
pub fn committed_is_serial()
    ensures { CommittedIsSerial }
{}
