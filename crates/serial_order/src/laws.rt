//! What a run depends on, and the serial order that follows from it.

ghost use Rattle.serial_order.specs.Framed.{RunsAreFramed};
ghost use Rattle.serial_order.specs.ConflictFree.{ConflictFreeIsSerial};

/// A run depends only on the entities that it reads: from states that agree on them it has the same
/// outcome, reads, writes and steps left, and leaves equal records of what it wrote. All other
/// entities stay as they were, and nothing that was written is missing afterwards.
pub fn runs_depend_on_reads()
    ensures { RunsAreFramed }
{}

/// Requests that each ran by itself on one state, none of which read or wrote what an earlier one of
/// the list wrote, come to the same outcomes one after another in their order, and to the state with
/// all their writes.
pub fn conflict_free_is_serial()
    ensures { ConflictFreeIsSerial }
{}
