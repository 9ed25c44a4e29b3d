//! The history of an engine, written as lines: for each entry its request line and its reply line.
//!
//! Nothing is held of it but the line that is written.
#![tactic(auto)]

ghost use Rattle.std.specs.Prelude.{◌≡◌, OnOk};
ghost use Rattle.sf_outside.specs.Gains.{Wrote, Counts};
ghost use Rattle.sf_outside.specs.Handing.{IsHandedOn};
ghost use Rattle.program_meaning.specs.Sources.{source_of as source_in};
ghost use Rattle.request_history.specs.HistoryView.{kept_at};
ghost use Rattle.request_history.specs.Repeats.{kept_in};
ghost use Rattle.engine.specs.EngineViews.{core_of, source_of};
ghost use Rattle.export_laws.specs.Exports.{entry_lines, kept_lines, history_lines};

use engine::Engine;
use py_tree::Checked;
use request_history::Found;
use request_json::{write_asked, write_entry};
use sf_outside::{Sink, WriteStop};
use std::alloc::Global;

/// Writes the whole history and hands it on. Where the output fails, or there is no memory for a line, it gained the first lines.
pub fn export<K: Sink>(alloc: Global, engine: &Engine, out: &mut K) -> Result<(), WriteStop>
    ensures wrote { Wrote result (K.held out.old) (K.held out.new) (history_lines (source_of engine.now) (core_of engine.now).history) }
    ensures counts { Counts (K.faults out.old) (K.faults out.new) result }
    ensures handed { OnOk result (IsHandedOn (K.handed out.new) (K.held out.new)) }
{
    write_entries(alloc, engine, out)?;
    out.flush()?;
    Ok(())
}

fn write_entries<K: Sink>(alloc: Global, engine: &Engine, out: &mut K) -> Result<(), WriteStop>
    ensures wrote { Wrote result (K.held out.old) (K.held out.new) (history_lines (source_of engine.now) (core_of engine.now).history) }
    ensures counts { Counts (K.faults out.old) (K.faults out.new) result }
{
    for before in 0..engine.entries() {
        write_found(alloc, engine, before + 1, out)?;
    }
    Ok(())
}

/// The lines of the entry at a place, where there is one.
fn write_found<K: Sink>(
    alloc: Global,
    engine: &Engine,
    place: u32,
    out: &mut K,
) -> Result<(), WriteStop>
    ensures wrote { Wrote result (K.held out.old) (K.held out.new) (kept_lines (source_of engine.now) (kept_in (core_of engine.now).history place)) }
    ensures counts { Counts (K.faults out.old) (K.faults out.new) result }
{
    match engine.entry(place) {
        Some(found) => write_both(alloc, engine.compiled().program(), found, out),
        None => Ok(()),
    }
}

/// The request line and the reply line of an entry.
fn write_both<K: Sink>(
    alloc: Global,
    program: &Checked,
    found: Found<'_>,
    out: &mut K,
) -> Result<(), WriteStop>
    ensures wrote { Wrote result (K.held out.old) (K.held out.new) (entry_lines (source_in program.now) (kept_at found.entry)) }
    ensures counts { Counts (K.faults out.old) (K.faults out.new) result }
{
    let asked = write_asked(alloc, program, found.id, &found.committed.act)?;
    out.write(asked.as_slice())?;
    let said = write_entry(alloc, found.id, &found.committed.outcome, found.seq)?;
    out.write(said.as_slice())?;
    Ok(())
}
