//! A sink that holds what it was given.

ghost use Rattle.std.specs.Prelude.{◌≡◌, ◌+◌, ◌≤◌, ◌||◌, [], take, Some, IfOk, OnOk, OnErr, length, vec_len, vec_capacity, is_err, nat_lt, nat_le, if◌then◌else◌};
ghost use Rattle.std.specs.Io.KnownBytes.{Keeps, Appends};
ghost use Rattle.sf_outside.specs.Bytes.{AppendsPrefix};
ghost use Rattle.sf_outside.specs.Calls.{is_due};
ghost use Rattle.sf_outside.specs.Causes.{HasCause, next_count};
ghost use Rattle.sf_outside.specs.Handing.{HandsOn, IsHandedOn};

use crate::calls::Calls;
use crate::devices::{Failed, Sink};
use std::alloc::{AllocError, Global};
use std::marker::Model;

/// A sink that holds what it was given, up to its room.
#[derive(Drop)]
pub struct MemSink {
    bytes: Vec<u8>,
    handed: usize,
    room: u64,
    calls: Calls,
    faults: u64,
}

impl Model for MemSink {
    ghost use Rattle.std.specs.Prelude.{◌≤◌, length, vec_capacity};
    ghost use Rattle.sf_outside.specs.Memory.{SinkState};

    ghost Value = { SinkState };

    ghost view = { λ sink. record { held = sink.bytes.items; handed = sink.handed; room = sink.room; fail_at = sink.calls.fail_at; calls = sink.calls.made; faults = sink.faults } };

    ghost invariant = { λ sink. (sink.room ≤ vec_capacity sink.bytes) × (sink.handed ≤ length sink.bytes.items) };
}

impl MemSink {
    /// An empty sink for `room` bytes. `fail_at` lists the numbers, from 1, of the calls that are to
    /// fail, whether they write or flush.
    pub fn new(alloc: Global, room: u64, fail_at: &[u64]) -> Result<MemSink, AllocError>
        ensures { IfOk result (λ made. made ≡ record { held = []; handed = 0; room = room; fail_at = fail_at.now; calls = 0; faults = 0 }) }
    {
        Ok(MemSink {
            bytes: Vec::with_capacity(alloc, room as usize)?,
            handed: 0,
            room,
            calls: Calls::new(alloc, fail_at)?,
            faults: 0,
        })
    }

    /// What it holds.
    pub fn bytes(&self) -> &[u8]
        ensures { result.now ≡ self.now.held }
    {
        self.bytes.as_slice()
    }

    /// Whether that many bytes more have room.
    fn has_room(&self, count: usize) -> bool
        ensures { result ≡ nat_le (length self.now.held + count) self.now.room }
    {
        let held = self.bytes.len() as u64;
        held <= self.room && count as u64 <= self.room - held
    }

    /// Counts a fault.
    fn fault(&mut self) -> Failed
        ensures { self.new ≡ record self.old { faults = next_count self.old.faults } }
    {
        self.faults = self.faults.saturating_add(1);
        Failed
    }
}

impl Sink for MemSink {
    ghost held = { λ sink. Some sink.held };

    ghost handed = { λ sink. Some (take sink.handed sink.held) };

    ghost faults = { λ sink. sink.faults };

    #[tactic(auto, using(crate::proofs::HandingLaws::handed_none, crate::proofs::HandingLaws::added_behind))]
    fn write(&mut self, bytes: &[u8]) -> Result<(), Failed>
        ensures whole { OnOk result (Appends (Some self.old.held) (Some self.new.held) bytes.now) }
        ensures part { OnErr result (AppendsPrefix (Some self.old.held) (Some self.new.held) bytes.now) }
        ensures err { OnErr result (self.new.held ≡ self.old.held) }
        ensures hands { HandsOn (Some (take self.old.handed self.old.held)) (Some (take self.new.handed self.new.held)) (Some self.new.held) }
        ensures handed { self.new.handed ≡ self.old.handed }
        ensures cause { HasCause self.old.faults self.new.faults result }
        ensures faults { self.new.faults ≡ (if is_err result then next_count self.old.faults else self.old.faults) }
        ensures fails { is_err result ≡ (is_due self.old.fail_at self.new.calls || nat_lt self.old.room (length self.old.held + length bytes.now)) }
        ensures calls { self.new.calls ≡ next_count self.old.calls }
        ensures fail_at { self.new.fail_at ≡ self.old.fail_at }
        ensures room { self.new.room ≡ self.old.room }
    {
        if self.calls.next_fails() || !self.has_room(bytes.len()) {
            return Err(self.fault());
        }
        match self.bytes.extend_from_slice(bytes) {
            Ok(()) => Ok(()),
            Err(_) => Err(self.fault()),
        }
    }

    #[tactic(auto, using(crate::proofs::HandingLaws::handed_none, crate::proofs::HandingLaws::handed_all))]
    fn flush(&mut self) -> Result<(), Failed>
        ensures kept { Keeps (Some self.old.held) (Some self.new.held) }
        ensures hands { HandsOn (Some (take self.old.handed self.old.held)) (Some (take self.new.handed self.new.held)) (Some self.new.held) }
        ensures all { OnOk result (IsHandedOn (Some (take self.new.handed self.new.held)) (Some self.new.held)) }
        ensures handed { OnErr result (self.new.handed ≡ self.old.handed) }
        ensures cause { HasCause self.old.faults self.new.faults result }
        ensures faults { self.new.faults ≡ (if is_err result then next_count self.old.faults else self.old.faults) }
        ensures fails { is_err result ≡ is_due self.old.fail_at self.new.calls }
        ensures calls { self.new.calls ≡ next_count self.old.calls }
        ensures fail_at { self.new.fail_at ≡ self.old.fail_at }
        ensures room { self.new.room ≡ self.old.room }
    {
        if self.calls.next_fails() {
            return Err(self.fault());
        }
        self.handed = self.bytes.len();
        Ok(())
    }
}
