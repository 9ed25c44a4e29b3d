//! Reading the history that a head names.

ghost use Rattle.std.specs.Prelude.{◌≡◌, ◌≤◌, length, IfSome, IsErrOf};
ghost use Rattle.sf_outside.specs.Causes.{Rose};
ghost use Rattle.sf_outside.specs.DiskModel.{of_file, Stays};
ghost use Rattle.sf_outside.specs.declared.store_disk.StoreFile.{StoreFile};
ghost use Rattle.recovery.specs.Answers.{AnswersHistory, AreEntries};

use crate::fault::OpenFault;
use sf_bytes::read_entry;
use sf_list::Sequence;
use sf_outside::{Disk, StoreFile};
use sf_value::Entries;
use std::alloc::Global;

/// The entries of the history, of which so many are named in so many bytes. It takes memory by the bytes that are there.
pub(crate) fn read_history<D: Disk>(
    alloc: Global,
    disk: &mut D,
    kept: u32,
    bytes: u64,
) -> Result<Entries, OpenFault>
    ensures answer { IfSome (D.facts disk.old).seen (λ now. AnswersHistory (of_file StoreFile.Hist now) kept bytes result) }
    ensures entries { AreEntries kept bytes result }
    ensures stays { Stays (D.facts disk.old) (D.facts disk.new) }
    ensures later { D.faults disk.old ≤ D.faults disk.new }
    ensures cause { IsErrOf result OpenFault.Failed → Rose (D.faults disk.old) (D.faults disk.new) }
    ensures mounts { D.mounts disk.new ≡ D.mounts disk.old }
{
    let end = disk.len(StoreFile::Hist)?;
    let mut named = vec![in alloc; 0; end.min(bytes) as usize]?;
    let count = disk.read_at(StoreFile::Hist, 0, &mut named)?;
    entries_in(alloc, &named[..count], kept, bytes)
}

/// The entries that stand in these bytes, which are all that there is of so many.
fn entries_in(alloc: Global, there: &[u8], kept: u32, bytes: u64) -> Result<Entries, OpenFault>
    requires { length there.now ≤ bytes }
    ensures answer { AnswersHistory there.now kept bytes result }
    ensures entries { AreEntries kept bytes result }
    ensures no_disk { IsErrOf result OpenFault.Failed → ⊥ }
{
    let mut entries = Sequence::new(alloc);
    let mut at = 0;
    for _ in 0..kept {
        let Some((entry, count)) = read_entry(alloc, &there[at..])? else {
            return Err(breaks_at(at));
        };
        entries.push(alloc, entry)?;
        at += count;
    }
    if (at as u64) < bytes {
        return Err(breaks_at(at));
    }
    Ok(entries)
}

/// The fault of a history that breaks at this place.
fn breaks_at(at: usize) -> OpenFault
    ensures { result ≡ OpenFault.Bad StoreFile.Hist at }
{
    OpenFault::Bad {
        file: StoreFile::Hist,
        at: at as u64,
    }
}
