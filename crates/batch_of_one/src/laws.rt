//! What batches of one request come to.

ghost use Rattle.batch_of_one.specs.BatchOfOne.{BatchOfOneIsLocal};
ghost use Rattle.batch_of_one.specs.WrittenAtOnce.{WritesBatches};

/// A session whose batches have one request prints what one prints that serves each request at once, and
/// comes to the same history and state, however many entries the history may have: where it is full both
/// stop at the same line.
pub fn batch_of_one_is_local()
    ensures { BatchOfOneIsLocal }
{}

/// Whatever a session that serves each request at once wrote, and however it ended, one whose batches have
/// one request would have written so much behind some first lines: what it committed is one serial run, all
/// replies to that were written, and with a write fault alone those to the last of it may be cut.
pub fn writes_as_batches_of_one()
    ensures { WritesBatches }
{}
