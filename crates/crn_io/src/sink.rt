//! Sinks: in memory, one that only counts, one over a writer of the system, and how all of some bytes are written.

ghost use Rattle.std.specs.Prelude.{ℕ, List, Option, Some, None, [], ◌≡◌, ◌+◌, ◌-◌, ◌^◌, ◌<◌, ◌≤◌, ◌↔◌, ◌⊎◌, length, vec_len, vec_capacity, IfOk, IsOkAnd, OnOk, OnErr, min, take, ⊤};
ghost use Rattle.std.specs.Io.KnownBytes.{WriteAppends, Appends};
ghost use Rattle.crn_io.specs.Causes.{HasCause, raised};
ghost use Rattle.crn_io.specs.Memory.{store_of, IsListed, WasListed, after_write, after_write_fault};
ghost use Rattle.crn_io.specs.Moved.{AppendsPart, AppendsFront};

use crate::source::Failed;
use std::alloc::{AllocError, Global};
use std::io::Write;
use std::marker::Model;

/// Where bytes go. A sink counts its faults, and nothing else, in a count that stays at the greatest `u64`.
pub trait Sink {
    /// The bytes written, where the sink tells them.
    ghost written: { Self → Option (List ℕ) };

    /// How many faults there were.
    ghost faults: { Self → ℕ };

    /// That the last call failed, where the sink tells it.
    ghost just_failed: { Self → Type 0 } = { λ _. ⊤ };

    /// Appends some bytes of the front of `piece`, and says how many. A call that fails appends none.
    fn write(&mut self, piece: &[u8]) -> Result<usize, Failed>
        requires { 0 < length piece.now }
        ensures some { IfOk result (λ n. 1 ≤ n) }
        ensures bound { IfOk result (λ n. n ≤ length piece.now) }
        ensures bytes { WriteAppends (written self.old) (written self.new) result piece.now }
        ensures cause { HasCause (faults self.old) (faults self.new) result }
        ensures last { OnErr result (just_failed self.new) };
}

/// A sink into memory that has room for `capacity` bytes, takes at most `step` bytes a call, and fails at the calls whose numbers are listed. The first call is number 1.
#[derive(Debug, Drop)]
pub struct MemSink {
    bytes: Vec<u8>,
    capacity: usize,
    step: usize,
    fails: Vec<u64>,
    calls: u64,
    faults: u64,
}

impl Model for MemSink {
    ghost use Rattle.std.specs.Prelude.{◌≤◌, vec_len, vec_capacity};
    ghost use Rattle.crn_io.specs.Memory.{Store};

    ghost Value = { Store };

    ghost view = { λ s. record { written = s.bytes.items; capacity = s.capacity; step = s.step; fails = s.fails.items; calls = s.calls; faults = s.faults } };

    ghost invariant = { λ s. (s.capacity ≤ vec_capacity s.bytes) × (vec_len s.bytes ≤ s.capacity) × (1 ≤ s.step) };
}

impl MemSink {
    /// A sink with nothing written, of which no call was made.
    pub fn new(
        alloc: Global,
        capacity: usize,
        step: usize,
        fails: Vec<u64>,
    ) -> Result<MemSink, AllocError>
        requires { 1 ≤ step }
        ensures { IfOk result (λ s. s ≡ store_of capacity step fails.items) }
    {
        let bytes = Vec::with_capacity(alloc, capacity)?;
        Ok(MemSink {
            bytes,
            capacity,
            step,
            fails,
            calls: 0,
            faults: 0,
        })
    }

    /// The bytes written.
    pub fn written(&self) -> &[u8]
        ensures { result.now ≡ self.now.written }
    {
        self.bytes.as_slice()
    }

    /// How many calls failed.
    pub fn faults(&self) -> u64
        ensures { result ≡ self.now.faults }
    {
        self.faults
    }
}

impl Sink for MemSink {
    ghost written = { λ s. Some s.written };

    ghost faults = { λ s. s.faults };

    // Where it is full, each further call fails.
    ghost just_failed = { λ s. WasListed s.fails s.calls ⊎ (length s.written ≡ s.capacity) };

    fn write(&mut self, piece: &[u8]) -> Result<usize, Failed>
        requires { 0 < length piece.now }
        ensures some { IfOk result (λ n. 1 ≤ n) }
        ensures bound { IfOk result (λ n. n ≤ length piece.now) }
        ensures bytes { WriteAppends (Some self.old.written) (Some self.new.written) result piece.now }
        ensures cause { HasCause self.old.faults self.new.faults result }
        ensures last { OnErr result (WasListed self.new.fails self.new.calls ⊎ (length self.new.written ≡ self.new.capacity)) }
        ensures fails { OnErr result (IsListed self.old.fails self.old.calls ⊎ (length self.old.written ≡ self.old.capacity)) }
        ensures serves { OnOk result (¬ IsListed self.old.fails self.old.calls) }
        ensures room { OnOk result (length self.old.written < self.old.capacity) }
        ensures count { IfOk result (λ n. n ≡ min (length piece.now) (min self.old.step (self.old.capacity - length self.old.written))) }
        ensures ok { IfOk result (λ n. self.new ≡ after_write self.old piece.now n) }
        ensures err { OnErr result (self.new ≡ after_write_fault self.old) }
    {
        self.calls = self.calls.saturating_add(1);
        let room = self.capacity - self.bytes.len();
        if room == 0 || self.fails.contains(&self.calls) {
            self.faults = self.faults.saturating_add(1);
            return Err(Failed);
        }
        let count = piece.len().min(self.step).min(room);
        self.bytes.extend_from_slice(&piece[..count]).unwrap();
        Ok(count)
    }
}

/// A sink that keeps only how many bytes came, in a number that stays at the greatest `u64`. It never fails.
#[derive(Debug, Drop)]
pub struct CountSink {
    count: u64,
}

impl Model for CountSink {
    ghost use Rattle.std.specs.Prelude.{ℕ};

    ghost Value = { ℕ };

    ghost view = { λ s. s.count };
}

impl CountSink {
    /// A sink into which nothing was written.
    pub fn new() -> CountSink
        ensures { result ≡ 0 }
    {
        CountSink { count: 0 }
    }

    /// How many bytes were written.
    pub fn count(&self) -> u64
        ensures { result ≡ self.now }
    {
        self.count
    }
}

impl Sink for CountSink {
    ghost written = { λ _. None };

    ghost faults = { λ _. 0 };

    ghost just_failed = { λ _. ⊥ };

    fn write(&mut self, piece: &[u8]) -> Result<usize, Failed>
        requires { 0 < length piece.now }
        ensures some { IfOk result (λ n. 1 ≤ n) }
        ensures bound { IfOk result (λ n. n ≤ length piece.now) }
        ensures bytes { WriteAppends None None result piece.now }
        ensures cause { HasCause 0 0 result }
        ensures last { OnErr result ⊥ }
        ensures all { IsOkAnd result (λ n. n ≡ length piece.now) }
        ensures count { self.new ≡ min (self.old + length piece.now) (2 ^ 64 - 1) }
    {
        self.count = self.count.saturating_add(piece.len() as u64);
        Ok(piece.len())
    }
}

/// A sink over a writer of the system. It tells no bytes. It counts each error of the writer, among them a write that takes no byte and a flush that fails.
#[derive(Drop)]
pub struct StdSink<W: Write + Drop> {
    writer: W,
    faults: u64,
}

impl<W: Write + Drop> Model for StdSink<W> {
    ghost use Rattle.crn_io.specs.System.{Adapter};

    ghost Value = { Adapter };

    ghost view = { λ s. record { known = W.contents s.writer; faults = s.faults } };
}

impl<W: Write + Drop> StdSink<W> {
    /// A sink that writes into `writer`, with no fault so far.
    pub fn new(writer: W) -> StdSink<W>
        ensures { result ≡ record { known = W.contents writer; faults = 0 } }
    {
        StdSink { writer, faults: 0 }
    }
}

impl<W: Write + Drop> Sink for StdSink<W> {
    ghost written = { λ _. None };

    ghost faults = { λ s. s.faults };

    fn write(&mut self, piece: &[u8]) -> Result<usize, Failed>
        requires { 0 < length piece.now }
        ensures some { IfOk result (λ n. 1 ≤ n) }
        ensures bound { IfOk result (λ n. n ≤ length piece.now) }
        ensures bytes { WriteAppends None None result piece.now }
        ensures cause { HasCause self.old.faults self.new.faults result }
        ensures last { OnErr result ⊤ }
        ensures hands_on { IfOk result (λ n. Appends self.old.known self.new.known (take n piece.now)) }
        ensures held { OnErr result (AppendsFront self.old.known self.new.known piece.now) }
        ensures ok { OnOk result (self.new.faults ≡ self.old.faults) }
        ensures err { OnErr result (self.new.faults ≡ raised self.old.faults) }
    {
        if let Ok(count) = self.writer.write(piece)
            && count > 0
            && self.writer.flush().is_ok()
        {
            return Ok(count);
        }
        self.faults = self.faults.saturating_add(1);
        Err(Failed)
    }
}

/// Appends all the bytes. A call of the sink that fails is the last, and what was appended before it stays.
pub fn write_all<K: Sink>(sink: &mut K, bytes: &[u8]) -> Result<(), Failed>
    ensures ok { OnOk result (Appends (K.written sink.old) (K.written sink.new) bytes.now) }
    ensures err { OnErr result (AppendsPart (K.written sink.old) (K.written sink.new) bytes.now) }
    ensures cause { HasCause (K.faults sink.old) (K.faults sink.new) result }
    ensures last { OnErr result (K.just_failed sink.new) }
{
    let mut done = 0;
    'turns: while done < bytes.len() {
        done += sink.write(&bytes[done..])?;
    }
    Ok(())
}
