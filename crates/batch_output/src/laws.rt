//! What the definition of a session in batches says by itself.

ghost use Rattle.batch_output.specs.SerialBatches.{SerialBatches};
ghost use Rattle.batch_output.specs.BatchesEnd.{BatchesEnd};
ghost use Rattle.batch_output.specs.RequestsKept.{RequestsKept};

/// Whatever lawful rule commits, what a session prints in batches is what one serial run prints: after
/// any lines, and behind the end of the input, the core is sound, its history has grown, and each new
/// entry has one first reply, in the order of the history.
pub fn batches_are_serial()
    ensures { SerialBatches }
{}

/// At the end of the input nothing waits any more, unless the session stopped since its history has no
/// place for all that wait.
pub fn batches_end()
    ensures { BatchesEnd }
{}

/// No request is lost, and none is committed twice: between two lines each that was asked, under an id
/// that wasn't used before, was committed or waits, once, and behind the end of the input each was
/// committed, unless the session stopped since its history is full.
pub fn requests_kept()
    ensures { RequestsKept }
{}
