//! Whether all entries, records or requests of a list fit a program.

ghost use Rattle.std.specs.Prelude.{◌↔◌, IsTrue};
ghost use Rattle.std.specs.List.{AllByRecursion};
ghost use Rattle.entity_tables.specs.Views.{plain_tables};
ghost use Rattle.program_meaning.specs.Fits.{RecordFits};
ghost use Rattle.request_history.specs.SoundHistory.{RequestFits, EntriesFit};

use entity_tables::ClassTable;
use program_fit::{entry_fits, held_fits, request_fits};
use sf_value::{Entry, Held, Request};

pub fn entries_fit(tables: &[ClassTable], entries: &[Entry]) -> bool
    ensures { IsTrue result ↔ EntriesFit (plain_tables tables.now) entries.now }
{
    for entry in entries {
        if !entry_fits(tables, entry) {
            return false;
        }
    }
    true
}

/// Whether the record of each entity fits the entity's class.
pub fn records_fit(tables: &[ClassTable], records: &[Held]) -> bool
    ensures { IsTrue result ↔ AllByRecursion (λ held. RecordFits (plain_tables tables.now) held.at.class held.fields.fields) records.now }
{
    for held in records {
        if !held_fits(tables, held) {
            return false;
        }
    }
    true
}

pub fn requests_fit(tables: &[ClassTable], requests: &[Request]) -> bool
    ensures { IsTrue result ↔ AllByRecursion (RequestFits (plain_tables tables.now)) requests.now }
{
    for request in requests {
        if !request_fits(tables, request) {
            return false;
        }
    }
    true
}
