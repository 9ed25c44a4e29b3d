//! A source of given bytes.

ghost use Rattle.std.specs.Prelude.{◌≡◌, ◌≤◌, Some, IfOk, drop, vec_len, min, is_err, if◌then◌else◌};
ghost use Rattle.std.specs.Io.{ReadsAtMost};
ghost use Rattle.std.specs.Io.KnownBytes.{ReadConsumes};
ghost use Rattle.sf_outside.specs.Calls.{is_due};
ghost use Rattle.sf_outside.specs.Causes.{HasCause, next_count};

use crate::calls::Calls;
use crate::copies::copy_at;
use crate::devices::{Failed, Source};
use std::alloc::{AllocError, Global};
use std::marker::Model;

/// A source that gives the bytes that it was made with.
#[derive(Drop)]
pub struct MemSource {
    bytes: Vec<u8>,
    at: usize,
    calls: Calls,
    faults: u64,
}

impl Model for MemSource {
    ghost use Rattle.std.specs.Prelude.{◌≤◌, drop, vec_len};
    ghost use Rattle.sf_outside.specs.Memory.{SourceState};

    ghost Value = { SourceState };

    ghost view = { λ source. record {
      left = drop source.at source.bytes.items;
      fail_at = source.calls.fail_at;
      calls = source.calls.made;
      faults = source.faults;
    } };

    ghost invariant = { λ source. source.at ≤ vec_len source.bytes };
}

impl MemSource {
    /// A source of `bytes`. `fail_at` lists the numbers, from 1, of the calls that are to fail.
    pub fn new(alloc: Global, bytes: &[u8], fail_at: &[u64]) -> Result<MemSource, AllocError>
        ensures { IfOk result (λ made. made ≡ record { left = bytes.now; fail_at = fail_at.now; calls = 0; faults = 0 }) }
    {
        Ok(MemSource {
            bytes: Vec::from_slice(alloc, bytes)?,
            at: 0,
            calls: Calls::new(alloc, fail_at)?,
            faults: 0,
        })
    }
}

impl Source for MemSource {
    ghost left = { λ source. Some source.left };

    ghost faults = { λ source. source.faults };

    fn read(&mut self, buf: &mut [u8]) -> Result<usize, Failed>
        ensures bound { ReadsAtMost result buf.new }
        ensures bytes { ReadConsumes (Some self.old.left) (Some self.new.left) result buf.new }
        ensures cause { HasCause self.old.faults self.new.faults result }
        ensures faults { self.new.faults ≡ (if is_err result then next_count self.old.faults else self.old.faults) }
        ensures fails { is_err result ≡ is_due self.old.fail_at self.new.calls }
        ensures calls { self.new.calls ≡ next_count self.old.calls }
        ensures fail_at { self.new.fail_at ≡ self.old.fail_at }
    {
        if self.calls.next_fails() {
            self.faults = self.faults.saturating_add(1);
            return Err(Failed);
        }
        let count = copy_at(self.bytes.as_slice(), self.at as u64, buf);
        self.at += count;
        Ok(count)
    }
}
