//! What the reordered batch is, by pairs of requests, and that its order is serial.

ghost use Rattle.std.specs.Prelude.{List};
ghost use Rattle.serial_order.specs.ConflictFree.{Access};
ghost use Rattle.batch_reorder.specs.ReorderedBatch.{IsReordered};
ghost use Rattle.batch_reorder.specs.Reordering.{reordered};
ghost use Rattle.batch_reorder.specs.ReorderedSerial.{ReorderedIsSerial};

/// The rule reorders by pairs. A request is committed exactly where it writes nothing that an earlier
/// one of the batch writes, and doesn't both read what an earlier one writes and write what an earlier
/// one reads; earlier ones count whether they are committed or not. A committed request that reads
/// what a committed one before it writes comes before all of those, any other behind them.
pub fn reorders_by_pairs()
    ensures { (batch : List Access) → IsReordered batch (reordered batch) }
{}

/// The committed requests of a reordered batch, one after another in the order that is listed, have
/// the outcomes that each had on the snapshot, and the writes of their works make the state after them.
pub fn reordered_is_serial()
    ensures { ReorderedIsSerial }
{}
