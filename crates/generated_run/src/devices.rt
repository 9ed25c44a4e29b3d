//! The devices of a run on generated work: its input is in memory, and its replies are dropped.

ghost use Rattle.std.specs.Prelude.{None, IsOk, OnOk, OnErr};
ghost use Rattle.std.specs.Io.KnownBytes.{Keeps, Appends};
ghost use Rattle.sf_outside.specs.Bytes.{AppendsPrefix};
ghost use Rattle.sf_outside.specs.Causes.{HasCause};
ghost use Rattle.sf_outside.specs.Handing.{HandsOn, IsHandedOn};

use sf_outside::{Failed, Sink, Source};

/// Drops what it is given.
#[derive(Drop)]
pub struct DroppingSink;

impl Sink for DroppingSink {
    ghost held = { λ sink. None };

    ghost handed = { λ sink. None };

    ghost faults = { λ sink. 0 };

    /// It never fails.
    fn write(&mut self, bytes: &[u8]) -> Result<(), Failed>
        ensures whole { OnOk result (Appends None None bytes.now) }
        ensures part { OnErr result (AppendsPrefix None None bytes.now) }
        ensures hands { HandsOn None None None }
        ensures cause { HasCause 0 0 result }
        ensures never { IsOk result }
    {
        let _dropped = bytes;
        Ok(())
    }

    /// It never fails.
    fn flush(&mut self) -> Result<(), Failed>
        ensures kept { Keeps None None }
        ensures hands { HandsOn None None None }
        ensures all { OnOk result (IsHandedOn None None) }
        ensures cause { HasCause 0 0 result }
        ensures never { IsOk result }
    {
        Ok(())
    }
}

/// Gives bytes that are in memory. A read of it never fails.
#[derive(Drop)]
pub struct GivenInput<'a> {
    pub(crate) left: &'a [u8],
}

impl Source for GivenInput<'_> {
    ghost use Rattle.std.specs.Prelude.{Some};

    ghost left = { λ input. Some input.left.now };

    ghost faults = { λ input. 0 };

    fn read(&mut self, buf: &mut [u8]) -> Result<usize, Failed> {
        let count = self.left.len().min(buf.len());
        buf[..count].copy_from_slice(&self.left[..count]);
        self.left = &self.left[count..];
        Ok(count)
    }
}
