//! What holds of every store, as the contracts of calls that do nothing.

ghost use Rattle.recovery.specs.OneStore.{NewIsNotOld, NewIsNotBad, OldIsNotBad, OldIsOne, BadIsOne};
ghost use Rattle.recovery.specs.StoreSteps.{OldHoldsBatches, BatchesHavePlaces, RecordAddsBatch, ClosedGateAddsNone, CheckpointBegins, CheckpointKeeps};

/// The files are a store of one kind at most, with one content.
pub fn is_one_store()
    ensures new_or_old { NewIsNotOld }
    ensures new_or_bad { NewIsNotBad }
    ensures old_or_bad { OldIsNotBad }
    ensures one_old { OldIsOne }
    ensures one_bad { BadIsOne }
{}

/// A store that is found again can be spoken of without the places of its batches.
pub fn holds_batches()
    ensures plain { OldHoldsBatches }
    ensures placed { BatchesHavePlaces }
{}

/// With one record more in its log a store has one batch more. Until its gate is open it has none more.
pub fn record_adds_batch()
    ensures added { RecordAddsBatch }
    ensures closed { ClosedGateAddsNone }
{}

/// With one checkpoint more a store has its snapshot and no batch. Until then it has what it had.
pub fn checkpoint_begins_anew()
    ensures begun { CheckpointBegins }
    ensures kept { CheckpointKeeps }
{}
