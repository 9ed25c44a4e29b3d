//! What holds of every store, as the contracts of calls that do nothing.

ghost use Rattle.store_meaning.specs.Arrivals.{ArrivalsUnlogged, NoneUnlogged};
ghost use Rattle.store_meaning.specs.Checkpoints.{CheckpointStands, CheckpointStays};
ghost use Rattle.store_meaning.specs.LoggedBatches.{BatchStands, ClosedGateStands};
ghost use Rattle.store_meaning.specs.Meanings.{OneMeaning, NotNoMeaning, OneCore};

/// An image stands for one core at one position, or is of another program, or has a wrong part, or is bad: one of them,
/// and with one content.
pub fn image_has_one_meaning()
    ensures one { OneMeaning }
    ensures some { NotNoMeaning }
    ensures one_core { OneCore }
{}

/// With the record of a batch in its log a store stands for the core behind the batch. Until its gate is open it stands
/// for the core before it.
pub fn logged_batch_is_kept()
    ensures added { BatchStands }
    ensures closed { ClosedGateStands }
{}

/// With a checkpoint a store stands for the core that its head and the entries make, at the start of the next epoch. Until then it
/// stands for the core before, where it did.
pub fn checkpoint_is_kept()
    ensures begun { CheckpointStands }
    ensures kept { CheckpointStays }
{}

/// A request that arrives isn't logged before its batch.
pub fn arrivals_are_not_logged()
    ensures arrived { ArrivalsUnlogged }
    ensures none { NoneUnlogged }
{}
