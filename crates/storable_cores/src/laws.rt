//! What holds of every core, as the contracts of calls that do nothing.

ghost use Rattle.storable_cores.specs.RealCores.{EmptyIsReal, ArrivalsAreReal, BatchesAreReal, ReplaysAreReal, SnapshotsAreReal};
ghost use Rattle.storable_cores.specs.StorableLaws.{EmptyIsStorable, ArrivalsAreStorable, BatchesAreStorable, ReplaysAreStorable, SnapshotsAreStorable, RecordsAreSpelt, CoresAreSpelt, HeadsAreSpelt, EntriesAreSpelt};

/// A core can be written to a store from the empty one on: behind each request of a line that arrives, behind each batch, and once it was read from a store.
pub fn cores_stay_storable()
    ensures empty { EmptyIsStorable }
    ensures arrived { ArrivalsAreStorable }
    ensures committed { BatchesAreStorable }
    ensures replayed { ReplaysAreStorable }
    ensures restored { SnapshotsAreStorable }
{}

/// What is written of such a core has a spelling: the record of its next batch, which is no longer than a log's record can be, its snapshot, and its head
/// with the entries of its history.
pub fn storable_cores_are_spelt()
    ensures records { RecordsAreSpelt }
    ensures snapshots { CoresAreSpelt }
    ensures heads { HeadsAreSpelt }
    ensures entries { EntriesAreSpelt }
{}

/// A core is real from the empty one on: behind each real request that arrives, behind each batch of an accepted program that writes what is real, and
/// once it was read from a store, from a snapshot and from a batch of the log.
pub fn cores_stay_real()
    ensures empty { EmptyIsReal }
    ensures arrived { ArrivalsAreReal }
    ensures committed { BatchesAreReal }
    ensures replayed { ReplaysAreReal }
    ensures restored { SnapshotsAreReal }
{}
