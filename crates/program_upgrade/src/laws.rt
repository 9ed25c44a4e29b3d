//! What stays true of what was kept.

ghost use Rattle.program_upgrade.specs.UpgradeLaws.{RecordsStillFit, StatesStillFit, RequestsStillFit, EntriesStillFit, AddedAreLight, EachIsMapped, RecordsAreMapped, EntitiesStay};

/// What fits an earlier program fits one that follows it, once the added values stand in the records. A mapped state holds the same
/// entities, and mapped records are the mapped state.
pub fn what_is_kept_fits()
    ensures records { RecordsStillFit }
    ensures states { StatesStillFit }
    ensures requests { RequestsStillFit }
    ensures entries { EntriesStillFit }
    ensures light { AddedAreLight }
    ensures each { EachIsMapped }
    ensures mapped { RecordsAreMapped }
    ensures entities { EntitiesStay }
{}
