//! What a disk promises: what a read gives, and what a crash may leave.

ghost use Rattle.std.specs.Prelude.{◌≡◌, ◌+◌, ◌^◌, ◌≤◌, ℕ, List, length, IfOk, IfSome, OnOk, OnErr, IsErrOf};
ghost use Rattle.std.specs.declared.option.Option.{Option};
ghost use Rattle.std.specs.Io.{ReadsAtMost};
ghost use Rattle.sf_outside.specs.Bytes.{CopiedAll};
ghost use Rattle.sf_outside.specs.Causes.{HasCause, Rose};
ghost use Rattle.sf_outside.specs.DiskModel.{Image, DiskFacts, Mounts, of_file, LeavesOnly, Stays, LeavesNoMore, SeenWritten, SeenTorn, IsDurable, IsClean, mounted, NotMounted};
ghost use Rattle.sf_outside.specs.ImageSteps.{ComesTorn};

use crate::devices::Failed;
use std::alloc::{AllocError, Global};

/// Why a disk isn't mounted.
#[derive(Clone, Copy, PartialEq, Eq, Debug)]
pub enum MountFault {
    Failed,
    NoMemory,
}

impl From<AllocError> for MountFault {
    ghost use Rattle.std.specs.Prelude.{◌≡◌};
    ghost use Rattle.sf_outside.specs.declared.store_disk.MountFault.TheVariants.{NoMemory};

    ghost from_gives = { λ _ fault. fault ≡ NoMemory };

    fn from(_error: AllocError) -> MountFault {
        MountFault::NoMemory
    }
}

/// The files of a store.
#[derive(Clone, Copy, PartialEq, Eq, Debug)]
pub enum StoreFile {
    Log0,
    Log1,
    Snap0,
    Snap1,
    Hist,
}

/// A disk with the files of a store. It is mounted first, and where that is refused no other call is made.
pub trait Disk {
    /// What is told of what it holds and of what a crash may leave.
    ghost facts: { Self → DiskFacts };

    /// What a read gives after a mount of this name, where it is told.
    ghost found: { Self → List ℕ → Option Image };

    /// How many calls other than `mount` failed, as far as the count reaches.
    ghost faults: { Self → ℕ };

    /// What was mounted and what was refused.
    ghost mounts: { Self → Mounts };

    /// Takes the folder of this name. From then on each file is there, and a crash leaves what a read gives.
    fn mount(&mut self, alloc: Global, name: &str) -> Result<(), MountFault>
        ensures clean { OnOk result (IsClean (facts self.new)) }
        ensures found { OnOk result ((facts self.new).seen ≡ found self.old name.now) }
        ensures ok { OnOk result (mounts self.new ≡ mounted (mounts self.old) name.now (facts self.new).moment) }
        ensures err { OnErr result (NotMounted name.now (mounts self.old) (mounts self.new)) }
        ensures kept { OnErr result (Stays (facts self.old) (facts self.new)) }
        ensures same { OnErr result ((other : List ℕ) → found self.new other ≡ found self.old other) }
        ensures later { (facts self.old).moment ≤ (facts self.new).moment }
        ensures cause { IsErrOf result MountFault.Failed → Rose ((mounts self.old).refused name.now) ((mounts self.new).refused name.now) }
        ensures faults { faults self.new ≡ faults self.old };

    /// The length of a file.
    fn len(&mut self, file: StoreFile) -> Result<u64, Failed>
        ensures value { IfOk result (λ n. IfSome (facts self.old).seen (λ now. n ≡ length (of_file file now))) }
        ensures stays { Stays (facts self.old) (facts self.new) }
        ensures cause { HasCause (faults self.old) (faults self.new) result }
        ensures mounts { mounts self.new ≡ mounts self.old };

    /// Copies as many bytes as stand at a place, none past the end of the file.
    fn read_at(&mut self, file: StoreFile, at: u64, buf: &mut [u8]) -> Result<usize, Failed>
        ensures bound { ReadsAtMost result buf.new }
        ensures bytes { IfOk result (λ n. IfSome (facts self.old).seen (λ now. CopiedAll (of_file file now) at n buf.new)) }
        ensures stays { Stays (facts self.old) (facts self.new) }
        ensures cause { HasCause (faults self.old) (faults self.new) result }
        ensures mounts { mounts self.new ≡ mounts self.old };

    /// Writes over what stands at a place, and past the end. Until a sync a crash may leave any bytes there.
    fn write_at(&mut self, file: StoreFile, at: u64, bytes: &[u8]) -> Result<(), Failed>
        requires { at + length bytes.now ≤ 2 ^ 62 }
        ensures ok { OnOk result (SeenWritten file at bytes.now (facts self.old) (facts self.new)) }
        ensures err { OnErr result (SeenTorn file at (length bytes.now) (facts self.old) (facts self.new)) }
        ensures moments { LeavesOnly (facts self.old) (facts self.new) (ComesTorn file at (length bytes.now) (facts self.old)) }
        ensures cause { HasCause (faults self.old) (faults self.new) result }
        ensures mounts { mounts self.new ≡ mounts self.old };

    /// After it a crash leaves the file as a read gives it. After one that fails a read may give any of the images that a crash might have left.
    fn sync(&mut self, file: StoreFile) -> Result<(), Failed>
        ensures durable { OnOk result (IsDurable file (facts self.new)) }
        ensures stays { OnOk result (Stays (facts self.old) (facts self.new)) }
        ensures no_more { LeavesNoMore (facts self.old) (facts self.new) }
        ensures cause { HasCause (faults self.old) (faults self.new) result }
        ensures mounts { mounts self.new ≡ mounts self.old };
}
