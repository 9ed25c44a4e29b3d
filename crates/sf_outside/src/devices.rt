//! What a source, a sink and a set of named files promise.

ghost use Rattle.std.specs.Prelude.{◌≡◌, ◌≤◌, ℕ, List, OnOk, OnErr};
ghost use Rattle.std.specs.declared.option.Option.{Option};
ghost use Rattle.std.specs.Io.{ReadsAtMost};
ghost use Rattle.std.specs.Io.KnownBytes.{Keeps, Appends, ReadConsumes};
ghost use Rattle.sf_outside.specs.Handing.{HandsOn, IsHandedOn};
ghost use Rattle.sf_outside.specs.Causes.{HasCause};
ghost use Rattle.sf_outside.specs.Bytes.{AppendsPrefix, ReadsAt};

/// A device answered with a fault.
#[derive(Clone, Copy, PartialEq, Eq, Debug)]
pub struct Failed;

/// What bytes come from.
pub trait Source {
    /// What is left, where the source tells it.
    ghost left: { Self → Option (List ℕ) };

    /// How many calls failed, as far as the count reaches.
    ghost faults: { Self → ℕ };

    /// Takes the next bytes, and none where it fails. 0 is the end, or an empty `buf`.
    fn read(&mut self, buf: &mut [u8]) -> Result<usize, Failed>
        ensures bound { ReadsAtMost result buf.new }
        ensures bytes { ReadConsumes (left self.old) (left self.new) result buf.new }
        ensures cause { HasCause (faults self.old) (faults self.new) result };
}

/// What bytes go to.
pub trait Sink {
    /// What it holds, where the sink tells it.
    ghost held: { Self → Option (List ℕ) };

    /// What of it was handed on, where the sink tells that.
    ghost handed: { Self → Option (List ℕ) };

    /// How many calls failed, as far as the count reaches.
    ghost faults: { Self → ℕ };

    /// Adds the piece, or fails and adds a prefix of it.
    fn write(&mut self, bytes: &[u8]) -> Result<(), Failed>
        ensures whole { OnOk result (Appends (held self.old) (held self.new) bytes.now) }
        ensures part { OnErr result (AppendsPrefix (held self.old) (held self.new) bytes.now) }
        ensures hands { HandsOn (handed self.old) (handed self.new) (held self.new) }
        ensures cause { HasCause (faults self.old) (faults self.new) result };

    /// Hands on what was written. Adds nothing.
    fn flush(&mut self) -> Result<(), Failed>
        ensures kept { Keeps (held self.old) (held self.new) }
        ensures hands { HandsOn (handed self.old) (handed self.new) (held self.new) }
        ensures all { OnOk result (IsHandedOn (handed self.new) (held self.new)) }
        ensures cause { HasCause (faults self.old) (faults self.new) result };
}

/// Files that are read by name.
pub trait Files {
    /// The bytes of the file of this name, in UTF-8, where it is there and the files are told.
    ghost content: { Self → List ℕ → Option (List ℕ) };

    /// How many calls with this name failed, as far as the count reaches.
    ghost faults: { Self → List ℕ → ℕ };

    /// Copies bytes of the file from a place on. 0 is its end, or an empty `buf`. A missing name fails.
    fn read_at(&mut self, name: &str, at: u64, buf: &mut [u8]) -> Result<usize, Failed>
        ensures bound { ReadsAtMost result buf.new }
        ensures bytes { ReadsAt (content self.old name.now) at result buf.new }
        ensures kept { (q : List ℕ) → content self.new q ≡ content self.old q }
        ensures cause { HasCause (faults self.old name.now) (faults self.new name.now) result }
        ensures later { (q : List ℕ) → faults self.old q ≤ faults self.new q };
}
