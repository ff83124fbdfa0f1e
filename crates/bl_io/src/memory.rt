//! A source and a sink in memory, which fail at calls that are named beforehand.
ghost use Rattle.std.specs.Prelude.{◌≡◌, ◌<◌, ◌≤◌, ◌↔◌, ℕ, true, length, [], IfOk, IsTrue, Some};
ghost use Rattle.std.specs.Io.{ReadsAtMost};
ghost use Rattle.std.specs.Io.KnownBytes.{WriteAppends, Keeps};
ghost use Rattle.bl_io.specs.Streams.{Gives};
ghost use Rattle.bl_io.specs.Causes.{HasCause};
ghost use Rattle.bl_io.specs.Memory.{Reads, Writes, Finishes, is_failing};

use crate::{Failed, Sink, Source};
use std::alloc::{AllocError, Global};
use std::marker::Model;

/// Bytes in memory as a source, which tells them.
#[derive(Drop)]
pub struct MemorySource {
    bytes: Vec<u8>,
    taken: usize,
    most: usize,
    failing: Vec<u32>,
    calls: u64,
    faults: u64,
}

impl Model for MemorySource {
    ghost use Rattle.std.specs.Prelude.{◌≤◌, length, drop};
    ghost use Rattle.bl_io.specs.Memory.{Feed};

    ghost Value = { Feed };

    ghost view = { λ s. record {
      left = drop s.taken s.bytes.items;
      most = s.most;
      failing =
          s.failing.items;
      calls = s.calls;
      faults = s.faults;
    } };

    ghost invariant = { λ s. (s.taken ≤ length s.bytes.items) × (1 ≤ s.most) };
}

impl MemorySource {
    /// Gives the bytes, at most `most` in a read. The reads with the numbers in `failing`,
    /// counted from 1, fail.
    pub fn new(bytes: Vec<u8>, most: usize, failing: Vec<u32>) -> MemorySource
        requires { 1 ≤ most }
        ensures { result ≡ record {
          left = bytes.items;
          most = most;
          failing =
              failing.items;
          calls = 0;
          faults = 0;
        } }
    {
        MemorySource {
            bytes,
            taken: 0,
            most,
            failing,
            calls: 0,
            faults: 0,
        }
    }
}

impl Source for MemorySource {
    ghost left = { λ s. Some s.left };

    ghost faults = { λ s. s.faults };

    fn read(&mut self, buf: &mut [u8]) -> Result<usize, Failed>
        requires { 0 < length buf.old }
        ensures count { ReadsAtMost result buf.new }
        ensures bytes { Gives (Some self.old.left) (Some self.new.left) result buf.new }
        ensures cause { HasCause self.old.faults self.new.faults result }
        ensures exact { Reads self.old self.new (length buf.new) result }
    {
        self.calls = self.calls.saturating_add(1);
        if fails_at(&self.failing, self.calls) {
            self.faults = self.faults.saturating_add(1);
            return Err(Failed);
        }
        let left = &self.bytes[self.taken..];
        let count = self.most.min(buf.len()).min(left.len());
        buf[..count].copy_from_slice(&left[..count]);
        self.taken += count;
        Ok(count)
    }
}

/// Room in memory as a sink, which tells what it has taken. Its calls take no memory.
#[derive(Drop)]
pub struct MemorySink {
    bytes: Vec<u8>,
    taken: usize,
    most: usize,
    failing: Vec<u32>,
    calls: u64,
    faults: u64,
}

impl Model for MemorySink {
    ghost use Rattle.std.specs.Prelude.{◌-◌, ◌≤◌, length, take};
    ghost use Rattle.bl_io.specs.Memory.{Store};

    ghost Value = { Store };

    ghost view = { λ s. record {
      kept = take s.taken s.bytes.items;
      most = s.most;
      room =
          length s.bytes.items - s.taken;
      failing = s.failing.items;
      calls = s.calls;
      faults =
          s.faults;
    } };

    ghost invariant = { λ s. (s.taken ≤ length s.bytes.items) × (1 ≤ s.most) };
}

impl MemorySink {
    /// Takes at most `most` bytes in a write, and `room` in all. The writes and finishes with
    /// the numbers in `failing`, counted together from 1, fail, and so does a write where no
    /// room is left.
    pub fn new(
        alloc: Global,
        most: usize,
        room: usize,
        failing: Vec<u32>,
    ) -> Result<MemorySink, AllocError>
        requires { 1 ≤ most }
        ensures { IfOk result (λ s. s ≡ record {
          kept = [];
          most = most;
          room = room;
          failing =
              failing.items;
          calls = 0;
          faults = 0;
        }) }
    {
        let bytes = vec![in alloc; 0u8; room]?;
        Ok(MemorySink {
            bytes,
            taken: 0,
            most,
            failing,
            calls: 0,
            faults: 0,
        })
    }

    /// The bytes taken so far.
    pub fn kept(&self) -> &[u8]
        ensures { result.now ≡ self.now.kept }
    {
        &self.bytes[..self.taken]
    }
}

impl Sink for MemorySink {
    ghost kept = { λ s. Some s.kept };

    ghost faults = { λ s. s.faults };

    fn write(&mut self, piece: &[u8]) -> Result<usize, Failed>
        requires { 0 < length piece.now }
        ensures count { IfOk result (λ n. (1 ≤ n) × (n ≤ length piece.now)) }
        ensures bytes { WriteAppends (Some self.old.kept) (Some self.new.kept) result piece.now }
        ensures cause { HasCause self.old.faults self.new.faults result }
        ensures exact { Writes self.old self.new (length piece.now) result }
    {
        self.calls = self.calls.saturating_add(1);
        let room = self.bytes.len() - self.taken;
        if fails_at(&self.failing, self.calls) || room == 0 {
            self.faults = self.faults.saturating_add(1);
            return Err(Failed);
        }
        let count = self.most.min(piece.len()).min(room);
        let end = self.taken + count;
        self.bytes[self.taken..end].copy_from_slice(&piece[..count]);
        self.taken = end;
        Ok(count)
    }

    fn finish(&mut self) -> Result<(), Failed>
        ensures bytes { Keeps (Some self.old.kept) (Some self.new.kept) }
        ensures cause { HasCause self.old.faults self.new.faults result }
        ensures exact { Finishes self.old self.new result }
    {
        self.calls = self.calls.saturating_add(1);
        if fails_at(&self.failing, self.calls) {
            self.faults = self.faults.saturating_add(1);
            return Err(Failed);
        }
        Ok(())
    }
}

fn fails_at(failing: &[u32], call: u64) -> bool
    ensures { result ≡ is_failing failing.now call }
{
    failing.iter().any(|number| u64::from(*number) == call)
}
