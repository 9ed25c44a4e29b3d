//! Finding the store of a program in a folder. Nothing is written.

ghost use Rattle.std.specs.Prelude.{◌≡◌, ◌≤◌, ◌<◌, ◌^◌, ◌⊎◌, length, IfOk, IfSome, IsErrOf, Ok};
ghost use Rattle.sf_outside.specs.Causes.{Rose};
ghost use Rattle.sf_outside.specs.DiskModel.{Image, IsClean, LeavesOnly};
ghost use Rattle.block_step.specs.CompiledViews.{IsWhole};
ghost use Rattle.recovery.specs.Answers.{Answers, IsPlaced};
ghost use Rattle.store_opening.specs.Findings.{Judges, IsFoundFor, IsAsFound, StaysAsFound};
ghost use Rattle.store_opening.specs.Openings.{MountsFor};
ghost use Rattle.store_opening.specs.OpenedStores.{program_for};

use crate::old_store::go_on;
use crate::opened_store::{OpenSettings, OpenedStore};
use crate::stop::OpenStop;
use block_step::Compiled;
use recovery::{Opened, reopen};
use sf_outside::Disk;
use sf_value::Snapshot;
use std::alloc::Global;
use store_meaning::Position;

/// What is found in a folder.
#[derive(Drop)]
pub enum FoundStore {
    /// Nothing was kept there yet. What the store was looked for with is given back.
    New {
        compiled: Compiled,
        settings: OpenSettings,
    },
    /// The store of the program.
    Old(OpenedStore),
}

/// Mounts the folder of this name, and finds the store in it for a program. Nothing is written.
pub fn find_store<D: Disk>(
    alloc: Global,
    disk: &mut D,
    name: &str,
    compiled: Compiled,
    settings: OpenSettings,
) -> Result<FoundStore, OpenStop>
    requires { IsWhole compiled }
    ensures answer { IfSome (D.found disk.old name.now) (Judges result (program_for compiled settings.program)) }
    ensures given { IfOk result (IsFoundFor compiled settings) }
    ensures unchanged { StaysAsFound result (D.found disk.old name.now) (D.facts disk.new) }
    ensures mounts { MountsFor result name.now (IsAsFound (D.found disk.old name.now))
        (D.mounts disk.old) (D.mounts disk.new) (D.faults disk.old) (D.faults disk.new) (D.facts disk.old) (D.facts disk.new) }
    ensures later { D.faults disk.old ≤ D.faults disk.new }
    ensures cause { IsErrOf result OpenStop.DiskFault → Rose (D.faults disk.old) (D.faults disk.new)
        ⊎ Rose ((D.mounts disk.old).refused name.now) ((D.mounts disk.new).refused name.now) }
{
    match disk.mount(alloc, name) {
        Ok(()) => find_mounted(alloc, disk, compiled, settings),
        Err(refused) => {
            drop(compiled);
            drop(settings);
            Err(OpenStop::from(refused))
        }
    }
}

/// Finds the store on a disk that is mounted.
fn find_mounted<D: Disk>(
    alloc: Global,
    disk: &mut D,
    compiled: Compiled,
    settings: OpenSettings,
) -> Result<FoundStore, OpenStop>
    requires whole { IsWhole compiled }
    requires clean { IsClean (D.facts disk.old) }
    ensures answer { IfSome (D.facts disk.old).seen (Judges result (program_for compiled settings.program)) }
    ensures given { IfOk result (IsFoundFor compiled settings) }
    ensures unchanged { StaysAsFound result (D.facts disk.old).seen (D.facts disk.new) }
    ensures moments { LeavesOnly (D.facts disk.old) (D.facts disk.new) (IsAsFound (D.facts disk.old).seen) }
    ensures mounts { D.mounts disk.new ≡ D.mounts disk.old }
    ensures later { D.faults disk.old ≤ D.faults disk.new }
    ensures cause { IsErrOf result OpenStop.DiskFault → Rose (D.faults disk.old) (D.faults disk.new) }
{
    match reopen(alloc, disk) {
        Ok(opened) => judge(alloc, compiled, settings, opened),
        Err(fault) => {
            drop(compiled);
            drop(settings);
            Err(OpenStop::from(fault))
        }
    }
}

/// What a store is to a program, from what it has.
fn judge(
    alloc: Global,
    compiled: Compiled,
    settings: OpenSettings,
    opened: Opened,
) -> Result<FoundStore, OpenStop>
    requires whole { IsWhole compiled }
    requires placed { IsPlaced (Ok opened) }
    ensures answer { (image : Image) → Answers image (Ok opened) → Judges result (program_for compiled settings.program) image }
    ensures given { IfOk result (IsFoundFor compiled settings) }
    ensures no_disk { IsErrOf result OpenStop.DiskFault → ⊥ }
{
    match opened {
        Opened::New => Ok(FoundStore::New { compiled, settings }),
        Opened::Old {
            epoch,
            kept,
            bytes,
            batches,
            at,
        } => {
            let entries = entries_in(&kept);
            let position = Position {
                epoch,
                at,
                bytes,
                kept: entries,
            };
            match go_on(alloc, compiled, settings, position, kept, batches) {
                Ok(store) => Ok(FoundStore::Old(store)),
                Err(stop) => Err(stop),
            }
        }
    }
}

/// How many entries a snapshot has.
fn entries_in(kept: &Snapshot) -> u32
    requires { length kept.now.history < 2 ^ 32 }
    ensures { result ≡ length kept.now.history }
{
    kept.history.len() as u32
}
